// The inspector's lines (document 02, Wish 14): a record's line by the ports and tables of a gateway file, and the lines of all records that are held. Nothing here reads or writes.
#![tactic(auto)]

ghost use Rattle.std.specs.Prelude.{◌≡◌, true, ◌-◌, ◌≤◌, length, take, drop};
ghost use Rattle.text.specs.Put.{Writes};
ghost use Rattle.route_decide.specs.Routing.{between};
ghost use Rattle.inspect_line.specs.Lines.{finding_by, differs_line, finding_line, Inspects};
ghost use Rattle.inspect_line.specs.Stages.{line_by};

use decision::Facts;
use file_set::{MAX_PORTS, Set};
use forward::forward;
use inspect_claim::{Recorded, compare_claim, read_record};
use inspect_split::{LEAD, measure_first};
use port::Port;
use table::levels_of;
use table_choose::{Tables, first_table};
use text::Line;

// Where the arriving area begins in a record.
const AREA: usize = 9;

// The lines of all whole records of what is held, put behind those that wait; answers how many octets of what is held were used. What stands behind them is kept: it is no whole
// record. The two ports of a record are picked where they lie, so that the set is not copied for each.
pub fn inspect_held(set: Set, rows: &[u16], held: &[u8], lines: &mut Line) -> usize
    ensures { Inspects set rows.now held.now lines.old lines.new result }
{
    let kept = set.tables;
    let tables = Tables {
        count: set.tablecount,
        items: kept,
    };
    // only the ports of a set that have a place
    let ports = set.portcount.min(MAX_PORTS);
    let mut at: usize = 0;
    let mut size = measure_first(held);
    while size > 0 {
        let from = at + LEAD;
        let to = at + size;
        let said = read_record(&held[from..to], ports);
        let a = said.arriving;
        let l = said.leaving;
        let arriving = set.ports[a];
        let leaving = set.ports[l];
        put_line(
            arriving,
            leaving,
            tables,
            rows,
            said,
            &held[from..to],
            lines,
        );
        at = to;
        size = measure_first(&held[at..]);
    }
    at
}

// The line of a record that was read: AGREES, DIFFERS and the first place that differs, or BROKEN where it does not parse.
fn put_line(
    a: Port,
    l: Port,
    tables: Tables,
    rows: &[u16],
    said: Recorded,
    octets: &[u8],
    line: &mut Line,
)
    requires { said.parsed ≡ true → (9 ≤ said.claimed) × (said.claimed ≤ length octets.now) }
    ensures { Writes line.old (line_by a l tables rows.now said octets.now) line.new }
{
    if !said.parsed {
        line.put_broken();
        return;
    }
    let finding = find_claimed(a, l, tables, rows, said.facts, octets, said.claimed);
    put_finding(line, finding);
}

// The areas of a record whose claimed decision begins at a place: the arriving one up to there, the claim from there on.
fn find_claimed(
    a: Port,
    l: Port,
    tables: Tables,
    rows: &[u16],
    facts: Facts,
    octets: &[u8],
    at: usize,
) -> Option<usize>
    requires { (9 ≤ at) × (at ≤ length octets.now) }
    ensures { result ≡ finding_by (between a l tables rows.now facts (take (at - 9) (drop 9 octets.now)) 40) (drop at octets.now) }
{
    find_difference(a, l, tables, rows, facts, &octets[AREA..at], &octets[at..])
}

// What the box decides and writes from one port to another, held against a claim. The records are asked anew for each: a decision by records that were checked once has its place here.
fn find_difference(
    a: Port,
    l: Port,
    tables: Tables,
    rows: &[u16],
    facts: Facts,
    area: &[u8],
    claimed: &[u8],
) -> Option<usize>
    ensures { result ≡ finding_by (between a l tables rows.now facts area.now 40) claimed.now }
{
    let mut space = [0u8; 40];
    let found = first_table(tables, rows, a.domain, l.domain);
    let item = found.item;
    let at = found.at;
    let end = found.end;
    let d = forward(
        a,
        l,
        item.table,
        &rows[at..end],
        levels_of(item),
        facts,
        area,
        &mut space,
    );
    compare_claim(d, &space, claimed)
}

// The line of what was found: the first place that differs, or None where all agree.
fn put_finding(line: &mut Line, finding: Option<usize>)
    ensures { Writes line.old (finding_line finding) line.new }
{
    match finding {
        None => line.word(b"AGREES\n"),
        Some(place) => put_differs(line, place),
    }
}

fn put_differs(line: &mut Line, place: usize)
    ensures { Writes line.old (differs_line place) line.new }
{
    line.word(b"DIFFERS");
    line.next(place as u64);
    line.octet(b'\n');
}
