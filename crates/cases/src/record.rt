// The records of a case: labels, ports, a host, the table with its level pairs, and the facts of a datagram.
ghost use Rattle.std.specs.Prelude.{◌≤◌};

use crate::field::Case;
use basic::{Basic, MAX_FIELDS, Way};
use decision::Facts;
use label::{Label, Run};
use option::Spellings;
use port::{Host, Port};
use table::{MAX_ROWS, Table};
use table_levels::{Levels, MAX_PAIRS};

// The groups of a port's later fields: option 130, permitted spellings, the default label of unlabelled hosts, strict.
const BASIC_GROUP: usize = 1;

const SPELLINGS_GROUP: usize = 2;

const DEFAULT_GROUP: usize = 4;

const STRICT_GROUP: usize = 8;

const ALL_GROUPS: usize = 15;

// The sum of all permitted spellings.
const ALL_SPELLINGS: usize = 15;

// The most level pairs and rows that are stored of a table of the entries 3, 6 and 8.
const OLD_PAIRS: usize = 16;

const OLD_ROWS: usize = 64;

// How many numbers the rows of one table have at most.
pub const TABLE_NUMBERS: usize = MAX_ROWS * 3;

// A table, its level pairs, and the place of the row behind its last, in the list that they were put into.
#[derive(Clone, Copy)]
pub struct TakenTable {
    pub table: Table,
    pub levels: Levels,
    pub end: usize,
}

// Domain, level, count, and the runs that are stored.
pub fn take_label(case: &mut Case) -> Option<Label> {
    let domain = case.word()?;
    let level = case.octet()?;
    let count = case.octet()?;
    let stored = case.stored(Label::MAX_RUNS)?;
    let mut runs = [Run { low: 0, high: 0 }; Label::MAX_RUNS];
    for run in runs[..stored].iter_mut() {
        let low = case.short()?;
        let high = case.short()?;
        *run = Run { low, high };
    }
    Some(Label {
        domain,
        level,
        count: usize::from(count),
        runs,
    })
}

// Domain, lowest and highest label, whether a label is required, and the assigned label.
pub fn take_port(case: &mut Case) -> Option<Port> {
    let domain = case.word()?;
    let lowest = take_label(case)?;
    let highest = take_label(case)?;
    let required = case.flag()?;
    let assigned = take_label(case)?;
    Some(Port::plain(domain, lowest, highest, required, assigned))
}

// A port and the groups of its later fields, into its place: which there are, and those in their order. One that is not there has the values of document 01.
pub fn take_wide_port(case: &mut Case, port: &mut Port) -> Option<()> {
    *port = take_port(case)?;
    let groups = case.stored(ALL_GROUPS)?;
    if has_part(groups, BASIC_GROUP) {
        port.basic = take_basic(case)?;
    }
    if has_part(groups, SPELLINGS_GROUP) {
        port.spellings = take_spellings(case)?;
    }
    if has_part(groups, DEFAULT_GROUP) {
        port.unlabelled = case.flag()?;
        port.default = take_label(case)?;
    }
    if has_part(groups, STRICT_GROUP) {
        port.strict = case.flag()?;
    }
    Some(())
}

// A port into each place of a list.
pub fn take_ports(case: &mut Case, ports: &mut [Port]) -> Option<()> {
    for port in ports.iter_mut() {
        take_wide_port(case, port)?;
    }
    Some(())
}

// Whether a power of 2 is a part of the sum.
fn has_part(sum: usize, part: usize) -> bool {
    sum & part != 0
}

// One octet, the sum of permitted spellings: 1 tag 1 shortest, 2 tag 1 with ten bitmap octets, 4 tag 2, 8 tag 5.
pub fn take_spellings(case: &mut Case) -> Option<Spellings> {
    let sum = case.stored(ALL_SPELLINGS)?;
    Some(Spellings {
        shortest: has_part(sum, 1),
        ten: has_part(sum, 2),
        numbers: has_part(sum, 4),
        pairs: has_part(sum, 8),
    })
}

// Whether the Basic Security Option is switched on, and what passes of it, receiving and sending.
fn take_basic(case: &mut Case) -> Option<Basic> {
    let on = case.flag()?;
    let receiving = take_way(case)?;
    let sending = take_way(case)?;
    Some(Basic {
        on,
        receiving,
        sending,
    })
}

// Lowest and highest level, count, and the flag fields that are stored.
fn take_way(case: &mut Case) -> Option<Way> {
    let lowest = case.octet()?;
    let highest = case.octet()?;
    let count = case.short()?;
    let stored = case.limited(MAX_FIELDS)?;
    let mut flags = [0u16; MAX_FIELDS];
    for field in flags[..stored].iter_mut() {
        *field = case.short()?;
    }
    Some(Way {
        lowest,
        highest,
        count: usize::from(count),
        flags,
    })
}

// Five flags: the facts that the caller states.
pub fn take_facts(case: &mut Case) -> Option<Facts> {
    let error = case.flag()?;
    let group = case.flag()?;
    let link = case.flag()?;
    let fragment = case.flag()?;
    let source = case.flag()?;
    Some(Facts {
        error,
        group,
        link,
        fragment,
        source,
    })
}

// One flag, the mark of entries 6 and 7: it is the first of the facts.
pub fn take_mark(case: &mut Case) -> Option<Facts> {
    let error = case.flag()?;
    Some(Facts {
        error,
        group: false,
        link: false,
        fragment: false,
        source: false,
    })
}

// Lowest and highest label.
pub fn take_host(case: &mut Case) -> Option<Host> {
    let lowest = take_label(case)?;
    let highest = take_label(case)?;
    Some(Host { lowest, highest })
}

// From and to domain, the level pairs, and the rows, which go into a list of zeros. They are lent as counted, and those past the count that are not zero
// are lent too.
pub fn take_table(case: &mut Case, rows: &mut [u16]) -> Option<TakenTable> {
    let from = case.word()?;
    let to = case.word()?;
    let pairs = case.octet()?;
    let stored = case.stored(OLD_PAIRS)?;
    let levels = take_levels(case, stored)?;
    let count = case.short()?;
    let held = case.stored(OLD_ROWS)?;
    take_rows(case, held, rows, 0)?;
    let counted = usize::from(count).min(MAX_ROWS);
    Some(TakenTable {
        table: Table {
            from,
            to,
            pairs: usize::from(pairs),
            count: usize::from(count),
        },
        levels,
        end: rows_needed(rows).max(counted),
    })
}

// A wide table: two octets for each count and for each number of what is stored, and the rows that are lent go into a list from the place of a row on.
pub fn take_wide_table(case: &mut Case, rows: &mut [u16], place: usize) -> Option<TakenTable> {
    let from = case.word()?;
    let to = case.word()?;
    let pairs = case.short()?;
    let stored = case.limited(MAX_PAIRS)?;
    let levels = take_levels(case, stored)?;
    let count = case.short()?;
    let lent = case.limited(MAX_ROWS)?;
    let end = take_rows(case, lent, rows, place)?;
    Some(TakenTable {
        table: Table {
            from,
            to,
            pairs: usize::from(pairs),
            count: usize::from(count),
        },
        levels,
        end,
    })
}

// The first level pairs of a table.
fn take_levels(case: &mut Case, stored: usize) -> Option<Levels>
    requires { stored ≤ 256 }
{
    let mut levels = [[0u8; 2]; MAX_PAIRS];
    for pair in levels[..stored].iter_mut() {
        let own = case.octet()?;
        let far = case.octet()?;
        *pair = [own, far];
    }
    Some(levels)
}

// The next `n` rows go into a list, three numbers each, from the place of a row on; those for which it has no room are left out. Answers the place of the row behind the last.
fn take_rows(case: &mut Case, n: usize, rows: &mut [u16], place: usize) -> Option<usize> {
    let mut end = place;
    for _ in 0..n {
        let low = case.short()?;
        let high = case.short()?;
        let target = case.short()?;
        if end < rows.len() / 3 {
            let at = end * 3;
            rows[at..at + 3].copy_from_slice(&[low, high, target]);
            end += 1;
        }
    }
    Some(end)
}

// How many rows a list has up to the last that is not zero.
fn rows_needed(rows: &[u16]) -> usize {
    match rows.iter().rposition(|number| *number != 0) {
        Some(last) => last / 3 + 1,
        None => 0,
    }
}

// The first rows of a list; none where it has fewer.
pub fn first_rows(rows: &[u16], count: usize) -> &[u16] {
    if rows.len() / 3 < count {
        return &rows[0..0];
    }
    let end = count * 3;
    &rows[0..end]
}
