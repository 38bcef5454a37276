// The house file: a set of ports and tables in octets, read (docs/FILE.md).
#![tactic(auto)]

ghost use Rattle.std.specs.Prelude.{◌≡◌, cond, ◌≤◌, leb, length, take, replicate, MatchResult, IfOk};
ghost use Rattle.file_format.specs.Format.{bad, read_at, ReadsAs, many, alike, same, written};
ghost use Rattle.file_format.specs.Places.{Filled};
ghost use Rattle.file_port.specs.PortFormat.{port_format, no_port};
ghost use Rattle.file_table.specs.TableFormat.{table_format};
ghost use Rattle.table.specs.Renumbering.{no_renumbering};
ghost use Rattle.file_set.specs.Set.{empty_set};
ghost use Rattle.file_read.specs.SetFormat.{ports_format, tables_format};
ghost use Rattle.file_read.specs.File.{file_format, most_octets, file_refused, outgrown, file_answer, file_reading, file_room};
ghost use Rattle.file_read.specs.Stages.{ReadsTables, RecordsTold};

use file_format::{read_octet, read_two, write_numbers};
use file_port::read_port;
use file_set::{Set, empty_set};
use file_table::read_table;
use port::Port;
use table::Renumbering;

// What a reading comes to. None of these is a number of document 01.
pub const ACCEPTED: u8 = 0;

pub const REFUSED: u8 = 101;

pub const UNKNOWN: u8 = 102;

pub const OUTGROWN: u8 = 103;

// The numbers of the rows of the most tables.
const MAX_NUMBERS: usize = 24576;

// How many tables were read, and how many numbers their rows have.
#[derive(Clone, Copy)]
struct TablesRead {
    count: usize,
    used: usize,
}

// What reading a file finds. The verdict is accepted, with the set, and `used` numbers of rows at the head of the lent room; refused, with the place of the first octet of the first
// bad field; a version that is not known, at place 2; rows that outgrow the room. In the last three the set is empty, and the room is as it was.
#[derive(Clone, Copy)]
pub struct FileRead {
    pub verdict: u8,
    pub at: usize,
    pub used: usize,
    pub set: Set,
}

// Reads so many ports into the lent places, which are empty. Answers how many, and the place after them or the place to blame.
fn read_each_port(
    octets: &[u8],
    at: usize,
    count: usize,
    version: u8,
    ports: &mut [Port],
) -> Result<(usize, usize), usize>
    requires { (count ≤ 16) × (ports.old ≡ replicate 16 no_port) }
    ensures read { ReadsAs (many (alike (port_format version)) same count 0) (λ n. take n ports.new) octets.now at result }
    ensures filled { IfOk result (λ p. Filled 16 no_port p.0 ports.new) }
{
    let mut place = at;
    for i in 0..count {
        let (port, next) = read_port(octets, place, version)?;
        ports[i] = port;
        place = next;
    }
    Ok((count, place))
}

// The ports of a file.
#[tactic(auto, unfolding(file_format::specs::Format::read_at, crate::specs::SetFormat::ports_format))]
fn read_ports(
    octets: &[u8],
    at: usize,
    version: u8,
    ports: &mut [Port],
) -> Result<(usize, usize), usize>
    requires { ports.old ≡ replicate 16 no_port }
    ensures read { ReadsAs (ports_format version) (λ n. take n ports.new) octets.now at result }
    ensures filled { IfOk result (λ p. Filled 16 no_port p.0 ports.new) }
{
    let (count, at) = read_octet(octets, at, 0, 16)?;
    read_each_port(octets, at, count as usize, version, ports)
}

// Reads so many tables into the lent places, which are empty, and their rows into the head of a working list.
fn read_each_table(
    octets: &[u8],
    at: usize,
    count: usize,
    version: u8,
    tables: &mut [Renumbering],
    work: &mut [u16; MAX_NUMBERS],
) -> Result<(TablesRead, usize), usize>
    requires { (count ≤ 8) × (tables.old ≡ replicate 8 no_renumbering) }
    ensures { ReadsTables (many (alike (table_format version)) same count 0) octets.now at tables.new work.new result }
{
    let mut used: usize = 0;
    let mut place = at;
    for i in 0..count {
        let (renumbering, next) = read_table(octets, place, version, work, used)?;
        tables[i] = renumbering;
        used += renumbering.table.count * 3;
        place = next;
    }
    let read = TablesRead {
        count: count,
        used: used,
    };
    Ok((read, place))
}

// The tables of a file, and their rows.
#[tactic(auto, unfolding(file_format::specs::Format::read_at, crate::specs::SetFormat::tables_format))]
fn read_tables(
    octets: &[u8],
    at: usize,
    version: u8,
    tables: &mut [Renumbering],
    work: &mut [u16; MAX_NUMBERS],
) -> Result<(TablesRead, usize), usize>
    requires { tables.old ≡ replicate 8 no_renumbering }
    ensures { ReadsTables (tables_format version) octets.now at tables.new work.new result }
{
    let (count, at) = read_octet(octets, at, 0, 8)?;
    read_each_table(octets, at, count as usize, version, tables, work)
}

// The fields of a file, its records into a set that is empty. Answers how many numbers the rows have, and the place after the tables or the place to blame.
#[tactic(auto, unfolding(file_format::specs::Format::read_at, crate::specs::File::file_format, crate::specs::SetFormat::set_format))]
fn read_records(
    octets: &[u8],
    set: &mut Set,
    work: &mut [u16; MAX_NUMBERS],
) -> Result<(usize, usize), usize>
    requires { (length octets.now ≤ 65535) × (set.old ≡ empty_set) }
    ensures { MatchResult result (λ p. RecordsTold octets.now set.new p.0 p.1 work.new) (λ n. read_at (file_format (length octets.now)) octets.now 0 ≡ bad n) }
{
    let total = octets.len() as u32;
    let (_, at) = read_two(octets, 0, total, total)?;
    let (number, at) = read_octet(octets, at, 1, 3)?;
    let version = number as u8;
    if most_octets(version) < total {
        return Err(0);
    }
    let (ports, at) = read_ports(octets, at, version, &mut set.ports)?;
    let (tables, at) = read_tables(octets, at, version, &mut set.tables, work)?;
    set.portcount = ports;
    set.tablecount = tables.count;
    Ok((tables.used, at))
}

// The most octets of a file of this version.
fn most_octets(version: u8) -> u32
    ensures { result ≡ most_octets version }
{
    if version < 2 {
        return 32768;
    }
    61440
}

// The answer for a bad field.
fn refuse(at: usize) -> FileRead
    ensures { result ≡ file_refused at }
{
    FileRead {
        verdict: REFUSED,
        at: at,
        used: 0,
        set: empty_set(),
    }
}

// The same, where a bad field at place 2 that is there is a version that is not known.
fn refuse_field(at: usize, total: usize, room: usize) -> FileRead
    ensures { result ≡ file_answer total room (bad at) }
{
    let named = (at == 2) & (2 < total);
    if !named {
        return refuse(at);
    }
    FileRead {
        verdict: UNKNOWN,
        at: 2,
        used: 0,
        set: empty_set(),
    }
}

// The answer for rows that outgrow the room.
fn outgrow() -> FileRead
    ensures { result ≡ outgrown }
{
    FileRead {
        verdict: OUTGROWN,
        at: 0,
        used: 0,
        set: empty_set(),
    }
}

// Reads a whole file; the rows of its tables go into the lent room.
pub fn read_file(octets: &[u8], rows: &mut [u16]) -> FileRead
    ensures { (result ≡ file_reading octets.now (length rows.old)) × (rows.new ≡ file_room octets.now rows.old) }
{
    let n = octets.len();
    if 65535 < n {
        return refuse(0);
    }
    let mut set = empty_set();
    let mut work = [0u16; MAX_NUMBERS];
    match read_records(octets, &mut set, &mut work) {
        Ok((used, at)) => {
            if at != n {
                return refuse(at);
            }
            if rows.len() < used {
                return outgrow();
            }
            write_numbers(&work[..used], rows, 0);
            FileRead {
                verdict: ACCEPTED,
                at: 0,
                used: used,
                set: set,
            }
        }
        Err(at) => refuse_field(at, n, rows.len()),
    }
}
