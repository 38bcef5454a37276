// What entry 18 of the program `cases` takes from a case: ports, tables, routes, and what is said of the datagram.
ghost use Rattle.std.specs.Prelude.{◌≤◌, IfSome};

use crate::field::{Case, Output};
use crate::record::{take_facts, take_ports, take_wide_table};
use decision::Facts;
use port::Port;
use table::{MAX_ROWS, Renumbering, empty_table};
use table_choose::{MAX_TABLES, Tables};
use table_levels::{LevelPair, Levels, MAX_PAIRS};

// How many numbers the rows of all tables of a case have at most, and one that may be left over.
pub const NUMBERS: usize = MAX_TABLES * MAX_ROWS * 3 + 1;

// The tables of a case, how many rows they lend together, and whether each lends as many as it counts.
#[derive(Clone, Copy)]
pub struct TakenTables {
    pub tables: Tables,
    pub rows: usize,
    pub fits: bool,
}

// The routes of a case, four numbers a route: the first `count` numbers are used.
#[derive(Clone, Copy)]
pub struct TakenRoutes {
    pub numbers: [u32; 1024],
    pub count: usize,
}

// The datagram and the output: the number of the port that it arrives at, its destination, the facts, and its options area.
#[derive(Clone, Copy)]
pub struct TakenDatagram<'a> {
    pub arriving: usize,
    pub destination: u32,
    pub facts: Facts,
    pub area: &'a [u8],
    pub output: Output,
}

// How many ports there are, at most 64, and the ports, in the first places of a list.
pub fn take_box_ports(case: &mut Case, ports: &mut [Port; 64]) -> Option<usize>
    ensures { IfSome result (λ n. n ≤ 64) }
{
    let count = case.stored(64)?;
    take_ports(case, &mut ports[..count])?;
    Some(count)
}

// How many tables there are, at most 8, and the tables; the rows of all go into one list.
pub fn take_tables(case: &mut Case, rows: &mut [u16]) -> Option<TakenTables> {
    let count = case.stored(MAX_TABLES)?;
    let mut items = [empty_table(); MAX_TABLES];
    let mut fits = true;
    let mut place: usize = 0;
    for item in items[..count].iter_mut() {
        let taken = take_wide_table(case, rows, place)?;
        fits = fits & is_apart(place, taken.end, taken.table.count);
        place = taken.end;
        *item = Renumbering {
            table: taken.table,
            levels: pairs_of(taken.levels),
        };
    }
    Some(TakenTables {
        tables: Tables { count, items },
        rows: place,
        fits,
    })
}

// Whether one place is so far behind the other.
fn is_apart(place: usize, end: usize, count: usize) -> bool {
    end.checked_sub(place) == Some(count)
}

// The rows that the tables lend. Where one lends more or fewer than it counts, a number is left over behind the last, for in one list for all the rows of the next
// table would stand for those that it lacks.
pub fn lent_rows(rows: &[u16], count: usize, fits: bool) -> &[u16] {
    if rows.len() / 3 < count {
        return &rows[0..0];
    }
    let end = count * 3;
    if fits {
        return &rows[0..end];
    }
    if end < rows.len() {
        let past = end + 1;
        return &rows[0..past];
    }
    rows
}

// One route: prefix, prefix length, port number, domain.
fn take_route(case: &mut Case) -> Option<[u32; 4]> {
    let prefix = case.word()?;
    let length = case.octet()?;
    let port = case.octet()?;
    let domain = case.word()?;
    Some([prefix, u32::from(length), u32::from(port), domain])
}

// How many routes there are, at most 256, and the routes.
pub fn take_routes(case: &mut Case) -> Option<TakenRoutes>
    ensures { IfSome result (λ r. r.count ≤ 1024) }
{
    let count = case.limited(256)?;
    let mut numbers = [0u32; 1024];
    let (routes, _) = numbers[..4 * count].as_chunks_mut::<4>();
    for route in routes {
        *route = take_route(case)?;
    }
    Some(TakenRoutes {
        numbers,
        count: 4 * count,
    })
}

// What is said of the datagram and of the output.
pub fn take_datagram<'a>(case: &mut Case<'a>) -> Option<TakenDatagram<'a>>
    ensures { IfSome result (λ d. d.output.room ≤ 512) }
{
    let arriving = case.octet()?;
    let destination = case.word()?;
    let facts = take_facts(case)?;
    let area = case.octets()?;
    let output = case.output()?;
    Some(TakenDatagram {
        arriving: usize::from(arriving),
        destination,
        facts,
        area,
        output,
    })
}

// Level pairs as a file's set holds them.
fn pairs_of(levels: Levels) -> [LevelPair; MAX_PAIRS] {
    levels.map(|pair| LevelPair { levels: pair })
}
