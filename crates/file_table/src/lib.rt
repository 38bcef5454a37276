// Tables in the house file: each is read at a place and written at a place, with its level pairs and its rows (docs/FILE.md, "A table").
#![tactic(auto)]

ghost use Rattle.std.specs.Prelude.{◌/◌, ◌≡◌, true, false, cond, [], ◌++◌, ◌+◌, ◌-◌, ◌*◌, ◌≤◌, ◌<◌, length, take, drop, replicate, MatchResult, IfOk, OnOk};
ghost use Rattle.table_levels.specs.Levels.{pair, no_pair};
ghost use Rattle.table.specs.Table.{row, rows_from, row_numbers, rising, targets_apart};
ghost use Rattle.table.specs.Renumbering.{LentTable, no_renumbering};
ghost use Rattle.file_format.specs.Format.{ReadsAs, Reads, Fills, many, got, bad, read_at, digits, octets, written, Adds, Added};
ghost use Rattle.file_format.specs.Laws.{flat};
ghost use Rattle.file_format.specs.Places.{Filled};
ghost use Rattle.file_table.specs.TableFormat.{most_pairs, most_rows, pair_format, next_least, row_format, with_row, table_format, head_of, fields_of, found_table};
ghost use Rattle.file_table.specs.Stages.{row_alone, ReadsRows, RowsAlone, kept_fields, pair_octets};

use file_format::{Output, count_used, has_room, read_four, read_octet, read_two, write_numbers};
use table::{Renumbering, Row, Table, rows_sound};
use table_levels::{LevelPair, MAX_PAIRS};

// The numbers of the most rows.
const MAX_NUMBERS: usize = 3072;

// The most level pairs and rows in a file of this version.
fn most_pairs(version: u8) -> u32
    ensures { (result ≡ most_pairs version) × (result ≤ 256) }
{
    if version < 2 {
        return 16;
    }
    256
}

fn most_rows(version: u8) -> u32
    ensures { (result ≡ most_rows version) × (result ≤ 1024) }
{
    if version < 2 {
        return 64;
    }
    1024
}

// A level pair, its first level from `first` on, its second from `second` on.
#[tactic(auto, unfolding(file_format::specs::Format::read_at, crate::specs::TableFormat::pair_format))]
fn read_pair(octets: &[u8], at: usize, first: u32, second: u32) -> Result<(LevelPair, usize), usize>
    ensures { Reads (pair_format (first, second)) octets.now at result }
{
    let (a, at) = read_octet(octets, at, first, 255)?;
    let (b, at) = read_octet(octets, at, second, 255)?;
    let pair = LevelPair {
        levels: [a as u8, b as u8],
    };
    Ok((pair, at))
}

// Level pairs, into the lent places; the place after them, or the place to blame.
fn fill_pairs(octets: &[u8], at: usize, pairs: &mut [LevelPair]) -> Result<usize, usize>
    ensures { Fills (many pair_format next_least (length pairs.old) (0, 0)) octets.now at pairs.new result }
{
    let mut place = at;
    let mut first: u32 = 0;
    let mut second: u32 = 0;
    for pair in pairs.iter_mut() {
        let (read, next) = read_pair(octets, place, first, second)?;
        *pair = read;
        first = u32::from(read.levels[0]) + 1;
        second = u32::from(read.levels[1]) + 1;
        place = next;
    }
    Ok(place)
}

// The level pairs of a table.
fn read_pairs(
    octets: &[u8],
    at: usize,
    count: usize,
) -> Result<([LevelPair; MAX_PAIRS], usize), usize>
    requires { count ≤ 256 }
    ensures read { ReadsAs (many pair_format next_least count (0, 0)) (take count) octets.now at result }
    ensures filled { IfOk result (λ p. Filled 256 no_pair count p.0) }
{
    let mut levels = [LevelPair { levels: [0u8; 2] }; MAX_PAIRS];
    let at = fill_pairs(octets, at, &mut levels[..count])?;
    Ok((levels, at))
}

// How far a range goes on after its first number.
fn span(low: u16, high: u16) -> u32
    ensures { (result ≡ high - low) × (result ≤ 65535) }
{
    u32::from(high.saturating_sub(low))
}

// A row from `floor` on, without a look at the targets of others.
#[tactic(auto, unfolding(file_format::specs::Format::read_at, crate::specs::Stages::row_alone))]
fn read_row(octets: &[u8], at: usize, floor: u32) -> Result<(Row, usize), usize>
    ensures read { Reads (row_alone floor) octets.now at result }
    ensures bound { IfOk result (λ p. p.0.high ≤ 65534) }
{
    let (first, at) = read_two(octets, at, floor, 65535)?;
    let (last, at) = read_two(octets, at, first, 65534)?;
    let low = first as u16;
    let high = last as u16;
    let (target, at) = read_two(octets, at, 0, 65534 - span(low, high))?;
    let row = Row {
        low: low,
        high: high,
        target: target as u16,
    };
    Ok((row, at))
}

// The rows of a table, each alone; their numbers are put in their places as they are read. Tells how many were read, and the place after them or the place to blame.
fn read_each_row(
    octets: &[u8],
    at: usize,
    count: usize,
    rows: &mut [u16],
) -> (usize, Result<usize, usize>)
    requires { (count ≤ 1024) × (count * 3 ≤ length rows.old) }
    ensures rows { RowsAlone octets.now at count (take result.0 (rows_from rows.new)) result.1 }
    ensures count { result.0 ≤ count }
    ensures whole { OnOk result.1 (result.0 ≡ count) }
{
    let mut place = at;
    let mut floor: u32 = 0;
    for i in 0..count {
        match read_row(octets, place, floor) {
            Ok((row, next)) => {
                rows[i * 3] = row.low;
                rows[i * 3 + 1] = row.high;
                rows[i * 3 + 2] = row.target;
                floor = u32::from(row.high) + 1;
                place = next;
            }
            Err(blamed) => return (i, Err(blamed)),
        }
    }
    (count, Ok(place))
}

// The first row, of rows whose sources rise, whose target meets that of a row before it, found by halves.
fn first_meeting(rows: &[u16]) -> usize
    requires { (length rows.now ≤ 3072) × (rising 0 (rows_from rows.now) ≡ true) × (targets_apart (rows_from rows.now) ≡ false) }
    ensures { (result < length rows.now / 3) × (targets_apart (take result (rows_from rows.now)) ≡ true) × (targets_apart (take (result + 1) (rows_from rows.now)) ≡ false) }
{
    let mut low: usize = 0;
    let mut high = rows.len() / 3;
    while low + 1 < high {
        let middle = (low + high) / 2;
        if rows_sound(&rows[..middle * 3]) {
            low = middle;
        } else {
            high = middle;
        }
    }
    low
}

// The rows of a table, with all their rules: the place after them, or the place to blame.
fn read_rows(octets: &[u8], at: usize, count: usize, rows: &mut [u16]) -> Result<usize, usize>
    requires { (count ≤ 1024) × (count * 3 ≤ length rows.old) }
    ensures { ReadsRows octets.now at count (take count (rows_from rows.new)) result }
{
    let (seen, end) = read_each_row(octets, at, count, rows);
    let rows = &rows[..seen * 3];
    if rows_sound(rows) {
        return end;
    }
    Err(at + first_meeting(rows) * 6 + 4)
}

// The fields of a table; its rows are put at the head of a working list.
#[tactic(auto, unfolding(file_format::specs::Format::read_at, crate::specs::TableFormat::table_format))]
fn read_fields(
    octets: &[u8],
    at: usize,
    version: u8,
    kept: &mut [u16],
) -> Result<(Renumbering, usize), usize>
    requires { 3072 ≤ length kept.old }
    ensures read { ReadsAs (table_format version) (kept_fields kept.new) octets.now at result }
    ensures filled { IfOk result (λ p. Filled 256 no_pair p.0.table.pairs p.0.levels) }
    ensures few { IfOk result (λ p. p.0.table.count ≤ 1024) }
{
    let (from, at) = read_four(octets, at, 1, 4294967295)?;
    let (to, at) = read_four(octets, at, 1, 4294967295)?;
    let (pairs, at) = read_two(octets, at, 0, most_pairs(version))?;
    let (levels, at) = read_pairs(octets, at, pairs as usize)?;
    let (count, at) = read_two(octets, at, 0, most_rows(version))?;
    let at = read_rows(octets, at, count as usize, kept)?;
    let table = Table {
        from: from,
        to: to,
        pairs: pairs as usize,
        count: count as usize,
    };
    Ok((
        Renumbering {
            table: table,
            levels: levels,
        },
        at,
    ))
}

// Reads a table with its level pairs in a file of this version, and tells the place after it or the place to blame. Its rows are written into the lent list from a place on, where there
// is room for all of them. A refused table writes nothing.
pub fn read_table(
    octets: &[u8],
    at: usize,
    version: u8,
    rows: &mut [u16],
    from: usize,
) -> Result<(Renumbering, usize), usize>
    ensures read { MatchResult result (λ p. read_at (table_format version) octets.now at ≡ got (found_table version octets.now at) p.1) (λ n. read_at (table_format version) octets.now at ≡ bad n) }
    ensures table { IfOk result (λ p. p.0 ≡ head_of (found_table version octets.now at)) }
    ensures rows_after { rows.new ≡ written from (row_numbers (found_table version octets.now at).rows) rows.old }
    ensures few { length (found_table version octets.now at).rows ≤ 1024 }
{
    let mut kept = [0u16; MAX_NUMBERS];
    let (renumbering, at) = read_fields(octets, at, version, &mut kept)?;
    write_numbers(&kept[..renumbering.table.count * 3], rows, from);
    Ok((renumbering, at))
}

// The first n level pairs.
fn write_pairs(renumbering: Renumbering, n: usize, out: &mut Output)
    requires { n ≤ 256 }
    ensures { Added out.old (flat pair_octets (take n renumbering.levels)) out.new }
{
    for pair in &renumbering.levels[..n] {
        out.octet(u32::from(pair.levels[0]));
        out.octet(u32::from(pair.levels[1]));
    }
}

// Rows, each as its three numbers.
fn write_rows(rows: &[u16], out: &mut Output)
    ensures { Added out.old (flat (digits 2) rows.now) out.new }
{
    for number in rows {
        out.two(u32::from(*number));
    }
}

// Writes a table of version 3 with its rows where there is room for all of it; else nothing.
pub fn write_table(renumbering: Renumbering, rows: &[u16], out: &mut Output)
    ensures { Adds out.old (octets (table_format 3) (fields_of (record { item = renumbering; rows = rows.now }))) out.new }
{
    if !has_room(out.octets.len(), out.end, table_size(renumbering, rows)) {
        return;
    }
    let table = renumbering.table;
    let n = count_used(table.pairs, 256);
    let m = count_used(rows.len() / 3, 1024);
    out.four(table.from);
    out.four(table.to);
    out.two(n as u32);
    write_pairs(renumbering, n, out);
    out.two(m as u32);
    write_rows(&rows[..m * 3], out);
}

// How many octets a table of version 3 has with its rows.
pub fn table_size(renumbering: Renumbering, rows: &[u16]) -> usize
    ensures { (result ≡ length (octets (table_format 3) (fields_of (record { item = renumbering; rows = rows.now })))) × (result ≤ 6668) }
{
    let table = renumbering.table;
    12 + count_used(table.pairs, 256) * 2 + count_used(rows.len() / 3, 1024) * 6
}
