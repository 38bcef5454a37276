// Which function a case asks: its first octet names the entry. An entry takes its fields, calls its function and puts its line.
use crate::decision_entries::{ask_deliver, ask_forward, ask_wide_deliver, ask_wide_forward};
use crate::field::Case;
use crate::file_entries::{ask_read_file, ask_read_write, ask_write};
use crate::label_entries::{ask_contains, ask_renumber, ask_wide_renumber, ask_within};
use crate::memory_entries::ask_memory;
use crate::message_entries::{ask_build, ask_message};
use crate::option_entries::{
    ask_bitmap, ask_read, ask_read_basic, ask_spell, ask_spell_permitted, ask_write_basic,
};
use crate::routing_entries::ask_decide;
use crate::table_entries::ask_reverse;
use case_lines::put_broken;
use text::Line;

// The line of one case.
pub fn answer(octets: &[u8], line: &mut Line) {
    let mut case = Case::new(octets);
    let begin = line.end;
    if ask(&mut case, line).is_none() {
        // what was put of a case that does not parse is put over
        line.end = begin;
        put_broken(line);
    }
}

// The line of one case; none where it does not parse.
fn ask(case: &mut Case, line: &mut Line) -> Option<()> {
    let entry = case.octet()?;
    match entry {
        1 => ask_contains(case, line),
        2 => ask_within(case, line),
        3 => ask_renumber(case, line),
        4 => ask_spell(case, line),
        5 => ask_read(case, line),
        6 => ask_forward(case, false, line),
        7 => ask_deliver(case, false, line),
        8 => ask_forward(case, true, line),
        9 => ask_deliver(case, true, line),
        10 => ask_read_file(case, line),
        11 => ask_read_write(case, line),
        12 => ask_write(case, line),
        13 => ask_read_basic(case, line),
        14 => ask_write_basic(case, line),
        15 => ask_wide_forward(case, line),
        16 => ask_wide_deliver(case, line),
        17 => ask_spell_permitted(case, line),
        18 => ask_decide(case, line),
        19 => ask_wide_renumber(case, line),
        20 => ask_build(case, line),
        21 => ask_message(case, line),
        22 => ask_reverse(case, line),
        24 => ask_bitmap(case, line),
        25 => ask_memory(case, line),
        _ => None,
    }
}
