// Entries 1 to 3 and 19: labels asked alone, and renumbered.
use crate::field::Case;
use crate::record::{
    TABLE_NUMBERS, TakenTable, first_rows, take_label, take_table, take_wide_table,
};
use case_lines::Words;
use label::Label;
use renumber::{renumber, row_of};
use text::Line;

pub fn ask_contains(case: &mut Case, line: &mut Line) -> Option<()> {
    let label = take_label(case)?;
    let category = case.short()?;
    case.end()?;
    label.contains(category).put(line);
    Some(())
}

pub fn ask_within(case: &mut Case, line: &mut Line) -> Option<()> {
    let label = take_label(case)?;
    let other = take_label(case)?;
    case.end()?;
    label.within(other).put(line);
    Some(())
}

// Entry 3.
pub fn ask_renumber(case: &mut Case, line: &mut Line) -> Option<()> {
    let mut rows = [0u16; TABLE_NUMBERS];
    let label = take_label(case)?;
    let taken = take_table(case, &mut rows)?;
    put_renumbered(case, label, taken, &rows, line)
}

// Entry 19: with a wide table.
pub fn ask_wide_renumber(case: &mut Case, line: &mut Line) -> Option<()> {
    let mut rows = [0u16; TABLE_NUMBERS];
    let label = take_label(case)?;
    let taken = take_wide_table(case, &mut rows, 0)?;
    put_renumbered(case, label, taken, &rows, line)
}

// The label renumbered: number and label.
fn put_renumbered(
    case: &Case,
    label: Label,
    taken: TakenTable,
    rows: &[u16],
    line: &mut Line,
) -> Option<()> {
    case.end()?;
    let used = first_rows(rows, taken.end);
    let (number, far) = row_of(renumber(label, taken.table, used, taken.levels));
    line.decimal(u64::from(number));
    far.put(line);
    Some(())
}
