// Entries 10 to 12 of the program `cases`: the house file.
use crate::box_record::{NUMBERS, lent_rows, take_tables};
use crate::field::Case;
use crate::record::take_ports;
use case_lines::{put_named, put_part, put_two};
use file_read::{ACCEPTED, OUTGROWN, UNKNOWN, read_file};
use file_set::{Set, empty_set};
use file_write::{WriteError, write_file};
use text::Line;

// The longest output that an entry about files can ask for.
const ROOM: usize = 65535;

// How many numbers are lent for the rows of a file: those of 2,048 rows.
const LENT: usize = 6144;

// The most ports that are stored of a set.
const STORED_PORTS: usize = 16;

// The version octet of a file.
fn version_of(octets: &[u8]) -> u8 {
    octets.get(2).copied().unwrap_or(0)
}

// The line of a file that is not accepted.
fn put_refused(line: &mut Line, verdict: u8, at: usize, octets: &[u8]) {
    match verdict {
        OUTGROWN => line.word(b"ROOM"),
        UNKNOWN => put_named(line, b"VERSION", u64::from(version_of(octets))),
        _ => put_named(line, b"REFUSED", at as u64),
    }
}

pub fn ask_read_file(case: &mut Case, line: &mut Line) -> Option<()> {
    let octets = case.long_octets()?;
    case.end()?;
    let mut rows = [0u16; LENT];
    let file = read_file(octets, &mut rows);
    if file.verdict != ACCEPTED {
        put_refused(line, file.verdict, file.at, octets);
        return Some(());
    }
    let set = file.set;
    put_accepted(line, set.portcount, set.tablecount);
    Some(())
}

// The line of a file that is accepted.
fn put_accepted(line: &mut Line, ports: usize, tables: usize) {
    put_named(line, b"ACCEPTED", ports as u64);
    line.next(tables as u64);
}

// The set with its rows is written into an output of `room` octets: number, count, output.
fn put_written(line: &mut Line, set: Set, rows: &[u16], room: u16, fill: u8) {
    let mut space = [fill; ROOM];
    let size = room as usize;
    let w = write_file(set, rows, &mut space[0..size]);
    put_number(line, w);
    put_space(line, &space, size);
}

// An output of `size` octets.
fn put_space(line: &mut Line, space: &[u8; ROOM], size: usize) {
    put_part(line, space, size);
}

// The number of the writer, or NAMED where it refuses by name, and the count.
fn put_number(line: &mut Line, w: Result<usize, WriteError>) {
    match w {
        Ok(count) => put_two(line, 0, count as u64),
        Err(WriteError::Short) => put_two(line, 1, 0),
        Err(WriteError::Unsound) => put_two(line, 2, 0),
        Err(WriteError::Long) => put_named(line, b"NAMED", 0),
    }
}

pub fn ask_read_write(case: &mut Case, line: &mut Line) -> Option<()> {
    let octets = case.long_octets()?;
    let room = case.short()?;
    let fill = case.octet()?;
    case.end()?;
    let mut rows = [0u16; LENT];
    let file = read_file(octets, &mut rows);
    if file.verdict != ACCEPTED {
        put_refused(line, file.verdict, file.at, octets);
        return Some(());
    }
    let used = file.used.min(LENT);
    put_written(line, file.set, &rows[..used], room, fill);
    Some(())
}

// The ports of a set: the count, and those that are stored; those from there on stay as they are.
fn take_set_ports(case: &mut Case, set: &mut Set) -> Option<()> {
    let count = case.octet()?;
    let stored = case.stored(STORED_PORTS)?;
    set.portcount = usize::from(count);
    take_ports(case, &mut set.ports[..stored])
}

pub fn ask_write(case: &mut Case, line: &mut Line) -> Option<()> {
    let mut set = empty_set();
    take_set_ports(case, &mut set)?;
    let count = case.octet()?;
    let mut rows = [0u16; NUMBERS];
    let stored = take_tables(case, &mut rows)?;
    set.tablecount = usize::from(count);
    let tables = stored.tables.items;
    set.tables = tables;
    let room = case.short()?;
    let fill = case.octet()?;
    case.end()?;
    let lent = lent_rows(&rows, stored.rows, stored.fits);
    put_written(line, set, lent, room, fill);
    Some(())
}
