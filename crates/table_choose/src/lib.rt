// Up to 8 tables with their level pairs, and one lent list with the rows of all (document 02, wishes 7 and 8): whether all are sound, and the first for a
// pair of domains.
#![tactic(auto)]

ghost use Rattle.std.specs.Prelude.{◌≡◌, cond, ◌&&◌, ◌+◌, ◌-◌, ◌*◌, ◌≤◌, leb, eqb, length};
ghost use Rattle.table_choose.specs.Tables.{used_tables, tables_from, tables_sound, no_table_from, first_table, lent_found};

use table::{Renumbering, empty_table, levels_of, table_sound};

// The most tables of a set.
pub const MAX_TABLES: usize = 8;

// The first `count` are used. The rows of all are lent beside them as one list of numbers, three to a row, table after table.
#[derive(Clone, Copy)]
pub struct Tables {
    pub count: usize,
    pub items: [Renumbering; MAX_TABLES],
}

// A table of the set, and where its rows lie in the lent list.
#[derive(Clone, Copy)]
pub struct Found {
    pub item: Renumbering,
    pub at: usize,
    pub end: usize,
}

// Whether there are at most 8 tables, each is sound with its part of the list, and no number is left over behind the last.
pub fn tables_sound(tables: Tables, rows: &[u16]) -> bool
    ensures { result ≡ tables_sound tables rows.now }
{
    let n = tables.count;
    if MAX_TABLES < n {
        return false;
    }
    let mut at: usize = 0;
    for item in &tables.items[..n] {
        let table = item.table;
        let end = end_of(at, table.count, rows.len());
        if !table_sound(table, &rows[at..end], levels_of(*item)) {
            return false;
        }
        at = end;
    }
    at == rows.len()
}

// Where the rows of a table end that begin at a place: behind as many numbers as it counts, or with the list.
fn end_of(at: usize, count: usize, held: usize) -> usize
    requires { at ≤ held }
    ensures { (at ≤ result) × (result ≤ held) × (result ≡ cond (leb (count * 3) (held - at)) (at + count * 3) held) }
{
    let left = held - at;
    if left / 3 < count {
        return held;
    }
    at + count * 3
}

// The first table for the pair of domains, and the place of its rows; where there is none, a sound one from another domain, with no rows.
pub fn first_table(tables: Tables, rows: &[u16], from: u32, to: u32) -> Found
    ensures { (lent_found result rows.now ≡ first_table from to (tables_from (used_tables tables) rows.now)) × (result.at ≤ result.end) × (result.end ≤ length rows.now) }
{
    let n = tables.count.min(MAX_TABLES);
    let mut at: usize = 0;
    for item in &tables.items[..n] {
        let table = item.table;
        let end = end_of(at, table.count, rows.len());
        if (table.from == from) & (table.to == to) {
            return Found {
                item: *item,
                at: at,
                end: end,
            };
        }
        at = end;
    }
    no_table_from(from)
}

// A sound table from another domain.
fn no_table_from(from: u32) -> Found
    ensures { (result.item ≡ (no_table_from from).item) × (result.at ≡ 0) × (result.end ≡ 0) }
{
    let mut item = empty_table();
    item.table.from = another(from);
    item.table.to = 1;
    Found {
        item: item,
        at: 0,
        end: 0,
    }
}

// A domain other than the one given, and not 0.
fn another(domain: u32) -> u32
    ensures { result ≡ cond (eqb domain 1) 2 1 }
{
    if domain == 1 {
        return 2;
    }
    1
}
