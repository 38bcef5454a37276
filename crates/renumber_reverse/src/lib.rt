// The reverse of a renumbering table: each row and each level pair turned round (document 02, wish 11).
#![tactic(auto)]

ghost use Rattle.std.specs.Prelude.{◌≡◌, ◌++◌, ◌*◌, ◌/◌, ◌≤◌, length, drop};
ghost use Rattle.table.specs.Table.{row_numbers, lent, rows_from, target_end};
ghost use Rattle.renumber_reverse.specs.Reverse.{turned_row, turned_rows, turned_pair, turned_levels, number_of, row_of, reversed_of, with_rows};
ghost use Rattle.renumber_reverse.specs.Stages.{InOrder};

use table::{FEW_ROWS, MAX_ROWS, Row, Table, row_at, table_order};
use table_levels::Levels;

// Why a table was not reversed.
#[derive(Clone, Copy)]
pub enum ReverseError {
    // 2: an unsound table
    Unsound,
    // 24: too short a list for the rows
    Short,
}

// The refusal's number in document 02.
impl From<ReverseError> for u8 {
    ghost from_gives = { λ e n. n ≡ number_of e };

    fn from(error: ReverseError) -> u8 {
        match error {
            ReverseError::Unsound => 2,
            ReverseError::Short => 24,
        }
    }
}

// The reverse table without its rows and its level pairs; its rows are in the lent list, three numbers each: low, high and target; `reverse_levels` gives its level pairs. 2 for an
// unsound table, then 24 where the list has too few places; then it stays as it was, as does what lies past the rows.
pub fn reverse(
    table: Table,
    rows: &[u16],
    levels: Levels,
    back: &mut [u16],
) -> Result<Table, ReverseError>
    ensures { (result ≡ reversed_of (lent table rows.now) levels (length back.old / 3)) × (back.new ≡ with_rows (lent table rows.now) levels back.old) }
{
    if table.count <= FEW_ROWS {
        return reverse_in::<FEW_ROWS>(table, rows, levels, back);
    }
    reverse_in::<MAX_ROWS>(table, rows, levels, back)
}

// An answer as a row: 0 and the table; or a refusal's number and an all-zero table.
pub fn row_of(answer: Result<Table, ReverseError>) -> (u8, Table)
    ensures { (result.0 ≡ (row_of answer).number) × (result.1 ≡ (row_of answer).table) }
{
    match answer {
        Ok(table) => (0, table),
        Err(error) => (
            u8::from(error),
            Table {
                from: 0,
                to: 0,
                pairs: 0,
                count: 0,
            },
        ),
    }
}

// Each level pair turned round.
pub fn reverse_levels(levels: Levels) -> Levels
    ensures { result ≡ turned_levels levels }
{
    let mut out = [[0u8; 2]; 256];
    for (i, &pair) in levels.iter().enumerate() {
        out[i] = turn_pair(pair);
    }
    out
}

// The same with room for the order of so many rows.
fn reverse_in<const ROWS: usize>(
    table: Table,
    rows: &[u16],
    levels: Levels,
    back: &mut [u16],
) -> Result<Table, ReverseError>
    requires { (ROWS ≤ 1024) × (table.count ≤ 1024 → table.count ≤ ROWS) }
    ensures { (result ≡ reversed_of (lent table rows.now) levels (length back.old / 3)) × (back.new ≡ with_rows (lent table rows.now) levels back.old) }
{
    let mut order = [0u32; ROWS];
    reverse_by(table, rows, levels, &mut order, back)
}

fn reverse_by(
    table: Table,
    rows: &[u16],
    levels: Levels,
    order: &mut [u32],
    back: &mut [u16],
) -> Result<Table, ReverseError>
    requires { table.count ≤ 1024 → table.count ≤ length order.old }
    ensures { (result ≡ reversed_of (lent table rows.now) levels (length back.old / 3)) × (back.new ≡ with_rows (lent table rows.now) levels back.old) }
{
    if !table_order(table, rows, levels, order) {
        return Err(ReverseError::Unsound);
    }
    let n = table.count;
    if back.len() / 3 < n {
        return Err(ReverseError::Short);
    }
    write_rows(rows, &order[..n], back);
    Ok(Table {
        from: table.to,
        to: table.from,
        pairs: table.pairs,
        count: n,
    })
}

// A row turned round.
fn turn(row: Row) -> Row
    requires { (row.low ≤ row.high) × (target_end row ≤ 65534) }
    ensures { result ≡ turned_row row }
{
    Row {
        low: row.target,
        high: row.target + (row.high - row.low),
        target: row.low,
    }
}

// A level pair turned round.
fn turn_pair(pair: [u8; 2]) -> [u8; 2]
    ensures { result ≡ turned_pair pair }
{
    [pair[1], pair[0]]
}

// The rows turned round in the order of their targets, in a lent list.
fn write_rows(rows: &[u16], order: &[u32], back: &mut [u16])
    requires { InOrder (rows_from rows.now) (length order.now) order.now × (length order.now * 3 ≤ length back.old) }
    ensures { back.new ≡ row_numbers (turned_rows (rows_from rows.now)) ++ drop (length order.now * 3) back.old }
{
    for (i, key) in order.iter().enumerate() {
        let row = row_at(rows, (*key % 65536) as usize);
        let turned = turn(row);
        back[i * 3] = turned.low;
        back[i * 3 + 1] = turned.high;
        back[i * 3 + 2] = turned.target;
    }
}
