// Entry 22: the reverse of a table, with its rows in a lent list.
use crate::field::Case;
use crate::record::{TABLE_NUMBERS, first_rows, take_wide_table};
use case_lines::{put_first, put_rows, put_two};
use renumber_reverse::{reverse, reverse_levels, row_of};
use table::{MAX_ROWS, Table};
use table_levels::Levels;
use text::Line;

pub fn ask_reverse(case: &mut Case, line: &mut Line) -> Option<()> {
    let mut rows = [0u16; TABLE_NUMBERS];
    let taken = take_wide_table(case, &mut rows, 0)?;
    let room = case.limited(MAX_ROWS)?;
    case.end()?;
    let lent = room * 3;
    let mut back = [0u16; TABLE_NUMBERS];
    let reversed = reverse(
        taken.table,
        first_rows(&rows, taken.end),
        taken.levels,
        &mut back[..lent],
    );
    let turned = reverse_levels(taken.levels);
    let (number, table) = row_of(reversed);
    put_reverse(line, number, table, &turned, &back);
    Some(())
}

// Number, from, to, pair count, each pair, row count, each row.
fn put_reverse(line: &mut Line, number: u8, table: Table, levels: &Levels, rows: &[u16]) {
    put_two(line, u64::from(number), u64::from(table.from));
    line.next(u64::from(table.to));
    line.next(table.pairs as u64);
    put_first(line, levels, table.pairs);
    line.next(table.count as u64);
    put_rows(line, rows, table.count);
}
