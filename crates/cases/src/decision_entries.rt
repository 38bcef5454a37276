// Entries 6 to 9, 15 and 16 of the program `cases`: the decision, asked with a mark, which is the first of the five facts, or with all five.
use crate::field::Case;
use crate::record::{
    TABLE_NUMBERS, TakenTable, first_rows, take_facts, take_host, take_mark, take_port, take_table,
    take_wide_port, take_wide_table,
};
use case_lines::{LONGEST, Words, put_decided};
use decision::Facts;
use deliver::deliver;
use file_port::empty_port;
use forward::forward;
use port::{Host, Port};
use text::Line;

// Entries 6 and 8: `all` tells whether five facts are stated or a mark.
pub fn ask_forward(case: &mut Case, all: bool, line: &mut Line) -> Option<()> {
    let mut rows = [0u16; TABLE_NUMBERS];
    let arriving = take_port(case)?;
    let leaving = take_port(case)?;
    let taken = take_table(case, &mut rows)?;
    let facts = take_stated(case, all)?;
    put_forward(case, arriving, leaving, taken, &rows, facts, line)
}

// Entry 15: ports with their later fields.
pub fn ask_wide_forward(case: &mut Case, line: &mut Line) -> Option<()> {
    let mut rows = [0u16; TABLE_NUMBERS];
    let mut arriving = empty_port();
    take_wide_port(case, &mut arriving)?;
    let mut leaving = empty_port();
    take_wide_port(case, &mut leaving)?;
    let taken = take_wide_table(case, &mut rows, 0)?;
    let facts = take_facts(case)?;
    put_forward(case, arriving, leaving, taken, &rows, facts, line)
}

// The area and the output, and what forward decides.
fn put_forward(
    case: &mut Case,
    arriving: Port,
    leaving: Port,
    taken: TakenTable,
    rows: &[u16],
    facts: Facts,
    line: &mut Line,
) -> Option<()> {
    let area = case.octets()?;
    let lent = case.output()?;
    case.end()?;
    let room = lent.room;
    let mut space = [lent.fill; LONGEST];
    let d = forward(
        arriving,
        leaving,
        taken.table,
        first_rows(rows, taken.end),
        taken.levels,
        facts,
        area,
        &mut space[..room],
    );
    put_decided(line, &d, &space, room);
    Some(())
}

// Entries 7 and 9.
pub fn ask_deliver(case: &mut Case, all: bool, line: &mut Line) -> Option<()> {
    let port = take_port(case)?;
    let host = take_host(case)?;
    let facts = take_stated(case, all)?;
    put_deliver(case, port, host, facts, line)
}

// Entry 16: a port with its later fields.
pub fn ask_wide_deliver(case: &mut Case, line: &mut Line) -> Option<()> {
    let mut port = empty_port();
    take_wide_port(case, &mut port)?;
    let host = take_host(case)?;
    let facts = take_facts(case)?;
    put_deliver(case, port, host, facts, line)
}

// The area, and what deliver decides.
fn put_deliver(
    case: &mut Case,
    port: Port,
    host: Host,
    facts: Facts,
    line: &mut Line,
) -> Option<()> {
    let area = case.octets()?;
    case.end()?;
    let d = deliver(port, host, facts, area);
    d.put(line);
    Some(())
}

fn take_stated(case: &mut Case, all: bool) -> Option<Facts> {
    if all {
        take_facts(case)
    } else {
        take_mark(case)
    }
}
