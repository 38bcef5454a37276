// The set of records that a house file says: ports and tables, and what makes the set sound (docs/FILE.md).
#![tactic(auto)]

ghost use Rattle.std.specs.Prelude.{◌≡◌, true, cond, ◌≤◌, leb, eqb, length, take};
ghost use Rattle.file_port.specs.Theorems.{small, typed_way, typed_port};
ghost use Rattle.file_format.specs.Places.{places_fit};
ghost use Rattle.table.specs.Renumbering.{typed_pairs};
ghost use Rattle.file_set.specs.Set.{empty_set, zero_port, zero_table, used_port, unused_port, unused_table, set_sound};

use basic::Way;
use file_port::empty_port;
use label::Label;
use port::{Port, port_sound};
use table::{Renumbering, Table, empty_table, levels_of};
use table_choose::{MAX_TABLES, Tables, tables_sound};
use table_levels::{Levels, levels_sound};

// The most ports of a set.
pub const MAX_PORTS: usize = 16;

// The first `portcount` ports and the first `tablecount` tables are used. The tables' rows are lent beside it as one list of numbers, three to a row.
#[derive(Clone, Copy)]
pub struct Set {
    pub portcount: usize,
    pub ports: [Port; MAX_PORTS],
    pub tablecount: usize,
    pub tables: [Renumbering; MAX_TABLES],
}

// The set of no records.
pub fn empty_set() -> Set
    ensures { result ≡ empty_set }
{
    let port = empty_port();
    let table = empty_table();
    Set {
        portcount: 0,
        ports: [port; 16],
        tablecount: 0,
        tables: [table; 8],
    }
}

// Whether every number of the port is 0.
fn port_zero(port: Port) -> bool
    ensures { result ≡ zero_port port }
{
    let lowest = port.lowest;
    let highest = port.highest;
    let assigned = port.assigned;
    let low = lowest.is_zero();
    let high = highest.is_zero();
    let given = assigned.is_zero();
    let basic = port.basic;
    let off = basic.is_off();
    let spellings = port.spellings;
    let some = spellings.some();
    let default = port.default;
    let unset = default.is_zero();
    (port.domain == 0)
        & low
        & high
        & !port.required
        & given
        & off
        & !some
        & !port.unlabelled
        & !port.strict
        & unset
}

// A label has its 120 places, and a way its 256 of 16 bits: their types say so.
fn label_typed(label: Label) -> bool
    ensures { result ≡ eqb (length label.runs) 120 }
{
    true
}

fn small(flags: &[u16]) -> bool
    ensures { result ≡ small flags.now }
{
    true
}

fn way_typed(way: Way) -> bool
    ensures { result ≡ typed_way way }
{
    small(&way.flags)
}

fn port_typed(port: Port) -> bool
    ensures { result ≡ typed_port port }
{
    let lowest = port.lowest;
    let highest = port.highest;
    let assigned = port.assigned;
    let basic = port.basic;
    let receiving = basic.receiving;
    let sending = basic.sending;
    let default = port.default;
    let low = label_typed(lowest);
    let high = label_typed(highest);
    let given = label_typed(assigned);
    let first = way_typed(receiving);
    let second = way_typed(sending);
    let last = label_typed(default);
    low & (high & (given & (first & (second & last))))
}

// Whether a port suits its place: sound in one that is used, all zero in another.
fn port_fits(port: Port, used: bool) -> bool
    ensures { result ≡ cond used (used_port port) (unused_port port) }
{
    let typed = port_typed(port);
    if used {
        let sound = port_sound(port);
        return sound & typed;
    }
    let zero = port_zero(port);
    zero & typed
}

// Whether every number of the table and its level pairs is 0.
fn table_zero(table: Table, levels: Levels) -> bool
    ensures { result ≡ zero_table table levels }
{
    let places = levels_sound(levels, 0);
    (table.from == 0) & (table.to == 0) & (table.pairs == 0) & (table.count == 0) & places
}

// Whether a table suits its place, but for the soundness of one that is used.
fn table_fits(renumbering: Renumbering, used: bool) -> bool
    ensures { result ≡ cond used (typed_pairs renumbering) (unused_table renumbering) }
{
    let table = renumbering.table;
    let levels = levels_of(renumbering);
    if used {
        return true;
    }
    table_zero(table, levels)
}

fn ports_fit(ports: [Port; MAX_PORTS], n: usize) -> bool
    ensures { result ≡ places_fit used_port unused_port n ports }
{
    ports
        .iter()
        .enumerate()
        .all(|(i, port)| port_fits(*port, i < n))
}

fn tables_fit(tables: [Renumbering; MAX_TABLES], n: usize) -> bool
    ensures { result ≡ places_fit typed_pairs unused_table n tables }
{
    tables
        .iter()
        .enumerate()
        .all(|(i, table)| table_fits(*table, i < n))
}

// Whether the set is sound with the rows that are lent for it.
pub fn set_sound(set: Set, rows: &[u16]) -> bool
    ensures { result ≡ set_sound set rows.now }
{
    let held = set.ports;
    let kept = set.tables;
    let ports = ports_fit(held, set.portcount);
    let places = tables_fit(kept, set.tablecount);
    let all = Tables {
        count: set.tablecount,
        items: kept,
    };
    let tables = tables_sound(all, rows);
    (set.portcount <= 16) & ports & places & tables
}
