// Renumbering tables: rows of categories and pairs of levels, and what makes them sound (document 01, "Records"; document 02, wish 8).
#![tactic(auto)]

ghost use Rattle.std.specs.Prelude.{◌≡◌, true, ◌&&◌, ◌+◌, ◌*◌, ◌≤◌, leb, length, take, get_or, replicate};
ghost use Rattle.table.specs.Table.{lent, rows_from, row, no_row, target_end, rising, targets_apart, row_list_sound, bare_sound, table_sound};
ghost use Rattle.table.specs.Renumbering.{no_renumbering, levels_of, typed_pairs};
ghost use Rattle.table.specs.Order.{row_order, in_order, order_of, bare_order};
ghost use Rattle.table.specs.Stages.{chain, fields_sound, RowsRise, RowsOrder};

use lists_sort::sort_keys;
use table_levels::{LevelPair, Levels, MAX_PAIRS, levels_sound};
use table_rows::row_rises;

// The categories from low to high go to those from target on.
#[derive(Clone, Copy)]
pub struct Row {
    pub low: u16,
    pub high: u16,
    pub target: u16,
}

// A table without its rows and its level pairs. The rows are lent beside it as one list of numbers, three to a row: low, high and target. The level
// pairs are passed beside it too, and the first `pairs` of them are used.
#[derive(Clone, Copy)]
pub struct Table {
    pub from: u32,
    pub to: u32,
    pub pairs: usize,
    pub count: usize,
}

// A table, and beside it its level pairs: the first `table.pairs` are used.
#[derive(Clone, Copy)]
pub struct Renumbering {
    pub table: Table,
    pub levels: [LevelPair; MAX_PAIRS],
}

// The most rows that a table has.
pub const MAX_ROWS: usize = 1024;

// Up to so many rows little room is taken for their order, for all of it is zeroed.
pub const FEW_ROWS: usize = 64;

// The row at a place of a lent list; past its end a row of zeros. What is left over at the end, under three numbers, is no row.
pub fn row_at(rows: &[u16], i: usize) -> Row
    ensures { result ≡ get_or (rows_from rows.now) i no_row }
{
    if rows.len() / 3 <= i {
        return Row {
            low: 0,
            high: 0,
            target: 0,
        };
    }
    read_row(rows, i)
}

// The same of a row that is there.
fn read_row(rows: &[u16], i: usize) -> Row
    requires { i * 3 + 3 ≤ length rows.now }
    ensures { result ≡ get_or (rows_from rows.now) i no_row }
{
    let at = i * 3;
    Row {
        low: rows[at],
        high: rows[at + 1],
        target: rows[at + 2],
    }
}

// Whether rows by themselves are sound: whole ones and at most 1,024, their sources rise, their targets are apart.
pub fn rows_sound(rows: &[u16]) -> bool
    ensures { result ≡ row_list_sound rows.now }
{
    let n = rows.len() / 3;
    if MAX_ROWS < n {
        return false;
    }
    if rows.len() != n * 3 {
        return false;
    }
    if n <= FEW_ROWS {
        return rows_in::<FEW_ROWS>(rows, n);
    }
    rows_in::<MAX_ROWS>(rows, n)
}

fn rows_in<const PLACES: usize>(rows: &[u16], n: usize) -> bool
    requires { (length rows.now ≡ n * 3) × (n ≤ 1024) × (n ≤ PLACES) × (PLACES ≤ 1024) }
    ensures { result ≡ (rising 0 (rows_from rows.now) && targets_apart (rows_from rows.now)) }
{
    let mut order = [0u32; PLACES];
    rows_order(rows, n, &mut order)
}

// The table whose every number is 0.
pub fn empty_table() -> Renumbering
    ensures { result ≡ no_renumbering }
{
    Renumbering {
        table: Table {
            from: 0,
            to: 0,
            pairs: 0,
            count: 0,
        },
        levels: [LevelPair { levels: [0u8; 2] }; MAX_PAIRS],
    }
}

// The two levels of a pair.
fn two_of(pair: LevelPair) -> [u8; 2]
    ensures { (result ≡ pair.levels) × (length pair.levels ≡ 2) }
{
    pair.levels
}

// The level pairs as an array of two-number arrays.
pub fn levels_of(renumbering: Renumbering) -> Levels
    ensures { (result ≡ levels_of renumbering) × (typed_pairs renumbering ≡ true) }
{
    let mut levels = [[0u8; 2]; MAX_PAIRS];
    for (i, pair) in renumbering.levels.iter().enumerate() {
        levels[i] = two_of(*pair);
    }
    levels
}

// Whether the table is sound, with its rows and its level pairs.
pub fn table_sound(table: Table, rows: &[u16], levels: Levels) -> bool
    ensures { result ≡ table_sound (lent table rows.now) levels }
{
    if table.count <= FEW_ROWS {
        return sound_in::<FEW_ROWS>(table, rows, levels);
    }
    sound_in::<MAX_ROWS>(table, rows, levels)
}

fn sound_in<const PLACES: usize>(table: Table, rows: &[u16], levels: Levels) -> bool
    requires { (table.count ≤ 1024 → table.count ≤ PLACES) × (PLACES ≤ 1024) }
    ensures { result ≡ table_sound (lent table rows.now) levels }
{
    let mut order = [0u32; PLACES];
    table_order(table, rows, levels, &mut order)
}

// The same, for a caller that goes on to renumber: the list is given the rows in the order of their targets, each as its target and its
// number, and stays behind them as it was. Of an unsound table, or where the list has a place for fewer rows, false, and zeros alone.
pub fn table_order(table: Table, rows: &[u16], levels: Levels, order: &mut [u32]) -> bool
    ensures { (result ≡ (table_sound (lent table rows.now) levels && leb table.count (length order.old))) × (order.new ≡ order_of (lent table rows.now) levels order.old) }
{
    if !levels_sound(levels, table.pairs) {
        order.fill(0);
        return false;
    }
    bare_order(table, rows, order)
}

// The same for a caller that looks at the level pairs itself.
pub fn bare_order(table: Table, rows: &[u16], order: &mut [u32]) -> bool
    ensures { (result ≡ (bare_sound (lent table rows.now) && leb table.count (length order.old))) × (order.new ≡ bare_order (lent table rows.now) order.old) }
{
    let n = table.count;
    let fields = fields_sound(table, rows.len());
    if !(fields & (n <= order.len())) {
        order.fill(0);
        return false;
    }
    if rows_order(rows, n, order) {
        return true;
    }
    order.fill(0);
    false
}

// All but the rows and the level pairs; of the rows, that as many numbers are lent as the count says.
fn fields_sound(table: Table, held: usize) -> bool
    ensures { result ≡ fields_sound table held }
{
    if table.from == 0 {
        return false;
    }
    if table.to == 0 {
        return false;
    }
    if MAX_PAIRS < table.pairs {
        return false;
    }
    let count = table.count;
    if MAX_ROWS < count {
        return false;
    }
    held == count * 3
}

// Whether the sources rise and every end keeps to the highest category; and whether the targets rise as they stand.
#[derive(Clone, Copy)]
struct Rise {
    sources: bool,
    targets: bool,
}

// Whether the rows are sound, which the order of their targets shows; they are put in order only where they do not stand so.
fn rows_order(rows: &[u16], n: usize, order: &mut [u32]) -> bool
    requires { (length rows.now ≡ n * 3) × (n ≤ 1024) × (n ≤ length order.old) }
    ensures { RowsOrder (rows_from rows.now) n result order.old order.new }
{
    let rise = rows_rise(rows, n, order);
    if !rise.sources {
        return false;
    }
    if rise.targets {
        return true;
    }
    sort_keys(order, n);
    targets_apart(order, rows, n)
}

// One pass over the rows, which are written down by their targets, with their numbers.
fn rows_rise(rows: &[u16], n: usize, order: &mut [u32]) -> Rise
    requires { (length rows.now ≡ n * 3) × (n ≤ 1024) × (n ≤ length order.old) }
    ensures { RowsRise (rows_from rows.now) result.sources result.targets order.old order.new }
{
    let mut targets = true;
    let mut floor: u32 = 0;
    let mut past: u32 = 0;
    for i in 0..n {
        let row = read_row(rows, i);
        if !row_rises(row.low, row.high, row.target, floor) {
            return Rise {
                sources: false,
                targets: false,
            };
        }
        let target = row.target as u32;
        targets = targets & (past <= target);
        past = after_targets(row);
        order[i] = target * 65536 + (i as u32);
        floor = (row.high as u32) + 1;
    }
    Rise {
        sources: true,
        targets: targets,
    }
}

// Whether each target, along the order, begins above the end of the one before.
fn targets_apart(order: &[u32], rows: &[u16], n: usize) -> bool
    requires { (length (rows_from rows.now) ≡ n) × (n ≤ 1024) × (n ≤ length order.now) × (rising 0 (rows_from rows.now) ≡ true) × (take n order.now ≡ row_order (rows_from rows.now)) }
    ensures { result ≡ chain 0 (in_order (rows_from rows.now)) }
{
    let mut apart = true;
    let mut past: u32 = 0;
    for k in &order[..n] {
        let row = read_row(rows, (*k % 65536) as usize);
        let target = row.target as u32;
        apart = apart & (past <= target);
        past = after_targets(row);
    }
    apart
}

// The number after a row's targets.
fn after_targets(row: Row) -> u32
    requires { row.low ≤ row.high }
    ensures { result ≡ target_end row + 1 }
{
    let low = u32::from(row.low);
    let high = u32::from(row.high);
    let target = u32::from(row.target);
    target + (high - low) + 1
}
