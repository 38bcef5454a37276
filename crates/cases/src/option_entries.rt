// Entries 4, 5, 13, 14, 17 and 24 of the program `cases`: one option spelled and read, option 130 read and written, and a bitmap read by the table of octets.
use crate::field::Case;
use crate::record::{take_label, take_spellings};
use basic::{read_basic, write_basic};
use case_lines::{LONGEST, Words, put_counted, put_first, put_two};
use label::Label;
use option::Spellings;
use option_read::read_option;
use option_read_bitmap::read_bitmap;
use option_spell::spell_label;
use text::Line;

// Entry 4: as document 01 permits it.
pub fn ask_spell(case: &mut Case, line: &mut Line) -> Option<()> {
    let label = take_label(case)?;
    put_spelled(case, label, Spellings::usual(), line)
}

// Entry 17: under a set of permitted spellings.
pub fn ask_spell_permitted(case: &mut Case, line: &mut Line) -> Option<()> {
    let label = take_label(case)?;
    let permitted = take_spellings(case)?;
    put_spelled(case, label, permitted, line)
}

// The output, and the label spelled.
fn put_spelled(case: &mut Case, label: Label, permitted: Spellings, line: &mut Line) -> Option<()> {
    let lent = case.output()?;
    case.end()?;
    let room = lent.room;
    let mut space = [lent.fill; LONGEST];
    let (number, count) = option_spell::row_of(spell_label(label, permitted, &mut space[..room]));
    put_counted(line, number, count, &space, room);
    Some(())
}

pub fn ask_read(case: &mut Case, line: &mut Line) -> Option<()> {
    let octets = case.octets()?;
    case.end()?;
    let (number, pointer, label) = option_read::reading_row(read_option(octets));
    put_two(line, u64::from(number), pointer as u64);
    label.put(line);
    Some(())
}

// Entry 13: option 130 read alone.
pub fn ask_read_basic(case: &mut Case, line: &mut Line) -> Option<()> {
    let octets = case.octets()?;
    case.end()?;
    let (number, level, flags) = basic::reading_row(read_basic(octets));
    put_two(line, u64::from(number), u64::from(level));
    line.next(u64::from(flags));
    Some(())
}

// Entry 14: option 130 written.
pub fn ask_write_basic(case: &mut Case, line: &mut Line) -> Option<()> {
    let level = case.octet()?;
    let flags = case.short()?;
    let lent = case.output()?;
    case.end()?;
    let room = lent.room;
    let mut space = [lent.fill; LONGEST];
    let (number, count) = basic::writing_row(write_basic(level, flags, &mut space[..room]));
    put_counted(line, number, count, &space, room);
    Some(())
}

// Entry 24. Number, count, low and high of each run.
pub fn ask_bitmap(case: &mut Case, line: &mut Line) -> Option<()> {
    let octets = case.octets()?;
    case.end()?;
    let mut keys = [0u32; Label::MAX_RUNS];
    let (number, count) = option_read_bitmap::row_of(read_bitmap(octets, &mut keys));
    put_two(line, u64::from(number), count as u64);
    put_first(line, &keys, count);
    Some(())
}
