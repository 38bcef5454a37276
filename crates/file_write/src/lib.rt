// The house file, written: the one file of version 3 of a set of ports and tables (docs/FILE.md).
#![tactic(auto)]

ghost use Rattle.std.specs.Prelude.{◌≡◌, true, cond, ◌+◌, ◌-◌, ◌*◌, ◌≤◌, leb, length, take};
ghost use Rattle.table_choose.specs.Tables.{tables_from};
ghost use Rattle.file_format.specs.Format.{Added};
ghost use Rattle.file_format.specs.Laws.{flat};
ghost use Rattle.file_set.specs.Set.{set_sound};
ghost use Rattle.file_read.specs.File.{total_of, file_octets};
ghost use Rattle.file_write.specs.Stages.{port_octets, table_octets};
ghost use Rattle.file_write.specs.Written.{written_of, file_output};

use file_format::Output;
use file_port::{port_size, write_port};
use file_set::{MAX_PORTS, Set, set_sound};
use file_table::{table_size, write_table};
use port::Port;
use table::Renumbering;
use table_choose::MAX_TABLES;

// The most octets of a file of version 3.
const MOST_OCTETS: usize = 61440;

// Why no file was written.
#[derive(Clone, Copy)]
pub enum WriteError {
    // 1: too short an output
    Short,
    // 2: an unsound set
    Unsound,
    // refused by name: the file would be longer than its version allows
    Long,
}

// Writes the file of a set with its rows, and tells how many octets it has: 2 for an unsound set, then a refusal by name for one whose file would be over 60 KiB, then 1 for an output that is too short.
// A refusal writes nothing, and octets past the file are kept.
pub fn write_file(set: Set, rows: &[u16], out: &mut [u8]) -> Result<usize, WriteError>
    ensures { (result ≡ written_of set rows.now (length out.old)) × (out.new ≡ file_output set rows.now out.old) }
{
    if !set_sound(set, rows) {
        return Err(WriteError::Unsound);
    }
    let total = file_size(set, rows);
    if MOST_OCTETS < total {
        return Err(WriteError::Long);
    }
    if out.len() < total {
        return Err(WriteError::Short);
    }
    let mut file = Output {
        octets: out,
        end: 0,
    };
    write_fields(set, rows, total, &mut file);
    Ok(total)
}

// How many octets the file of a sound set has.
fn file_size(set: Set, rows: &[u16]) -> usize
    requires { set_sound set rows.now ≡ true }
    ensures { (result ≡ total_of 3 set rows.now) × (result ≤ 101109) }
{
    let held = set.ports;
    let kept = set.tables;
    5 + ports_size(held, set.portcount) + tables_size(kept, set.tablecount, rows)
}

// How many octets the first n ports have.
fn ports_size(ports: [Port; MAX_PORTS], n: usize) -> usize
    requires { n ≤ 16 }
    ensures { (result ≡ length (flat port_octets (take n ports))) × (result ≤ n * 2985) }
{
    let mut size: usize = 0;
    for port in &ports[..n] {
        size += port_size(*port);
    }
    size
}

// Where the rows of a table end that begin at a place: behind as many numbers as it counts, or with the list.
fn end_of(at: usize, count: usize, held: usize) -> usize
    requires { at ≤ held }
    ensures { (at ≤ result) × (result ≤ held) × (result ≡ cond (leb (count * 3) (held - at)) (at + count * 3) held) }
{
    let left = held - at;
    if left / 3 < count {
        return held;
    }
    at + count * 3
}

// How many octets the first n tables have, each with its part of the rows.
fn tables_size(tables: [Renumbering; MAX_TABLES], n: usize, rows: &[u16]) -> usize
    requires { n ≤ 8 }
    ensures { (result ≡ length (flat table_octets (tables_from (take n tables) rows.now))) × (result ≤ n * 6668) }
{
    let mut size: usize = 0;
    let mut at: usize = 0;
    for renumbering in &tables[..n] {
        let end = end_of(at, renumbering.table.count, rows.len());
        size += table_size(*renumbering, &rows[at..end]);
        at = end;
    }
    size
}

// The fields of the file of a sound set, which has so many octets.
fn write_fields(set: Set, rows: &[u16], total: usize, out: &mut Output)
    requires { (set_sound set rows.now ≡ true) × (total ≡ total_of 3 set rows.now) × (total ≤ 61440) }
    ensures { Added out.old (file_octets 3 set rows.now) out.new }
{
    let held = set.ports;
    let kept = set.tables;
    let n = set.portcount;
    let m = set.tablecount;
    out.two(total as u32);
    out.octet(3);
    out.octet(n as u32);
    write_ports(held, n, out);
    out.octet(m as u32);
    write_tables(kept, m, rows, out);
}

// The first n ports.
fn write_ports(ports: [Port; MAX_PORTS], n: usize, out: &mut Output)
    requires { n ≤ 16 }
    ensures { Added out.old (flat port_octets (take n ports)) out.new }
{
    for port in &ports[..n] {
        write_port(*port, out);
    }
}

// The first n tables, each with its part of the rows.
fn write_tables(tables: [Renumbering; MAX_TABLES], n: usize, rows: &[u16], out: &mut Output)
    requires { n ≤ 8 }
    ensures { Added out.old (flat table_octets (tables_from (take n tables) rows.now)) out.new }
{
    let mut from: usize = 0;
    for renumbering in &tables[..n] {
        let end = end_of(from, renumbering.table.count, rows.len());
        write_table(*renumbering, &rows[from..end], out);
        from = end;
    }
}
