// The words of a line of the program `cases`: what stands in it for a value, and what is put of a list or of an output.
#![tactic(auto)]

ghost use Rattle.std.specs.Prelude.{ℕ, List, ◌++◌, ◌*◌, take};
ghost use Rattle.text.specs.Put.{Writes};
ghost use Rattle.text.specs.Text.{decimal, next};
ghost use Rattle.case_lines.specs.Line.{answer_word, broken_word, each, run_words, key_words, pair_words, numbers_words, label_words, output_word, decision_words};

use decision::Decision;
use label::{Label, Run};
use text::Line;

// The longest output that a case can ask for.
pub const LONGEST: usize = 512;

// What stands in a line for a value.
pub trait Words {
    ghost words: { Self → List ℕ };

    fn put(&self, line: &mut Line)
        ensures { Writes line.old (words self.now) line.new };
}

// YES or NO.
impl Words for bool {
    ghost words = { answer_word };

    fn put(&self, line: &mut Line) {
        if *self {
            line.word(b"YES");
        } else {
            line.word(b"NO");
        }
    }
}

impl Words for u16 {
    ghost words = { next };

    fn put(&self, line: &mut Line) {
        line.next(u64::from(*self));
    }
}

impl Words for Run {
    ghost words = { run_words };

    fn put(&self, line: &mut Line) {
        line.next(u64::from(self.low));
        line.next(u64::from(self.high));
    }
}

// A run that is one number: its low and high.
impl Words for u32 {
    ghost words = { key_words };

    fn put(&self, line: &mut Line) {
        line.next(u64::from(*self / Run::KEY_FACTOR));
        line.next(u64::from(*self % Run::KEY_FACTOR));
    }
}

// Both levels of a pair.
impl Words for [u8; 2] {
    ghost words = { pair_words };

    fn put(&self, line: &mut Line) {
        line.next(u64::from(self[0]));
        line.next(u64::from(self[1]));
    }
}

// A label: domain, level, count and its first `count` runs, no more than 120.
impl Words for Label {
    ghost words = { label_words };

    fn put(&self, line: &mut Line) {
        line.next(u64::from(self.domain));
        line.next(u64::from(self.level));
        line.next(self.count as u64);
        put_first(line, &self.runs, self.count);
    }
}

// A decision: number, type, code, pointer, count and the label.
impl Words for Decision {
    ghost words = { decision_words };

    fn put(&self, line: &mut Line) {
        line.decimal(u64::from(self.number));
        line.next(u64::from(self.kind));
        line.next(u64::from(self.code));
        line.next(u64::from(self.pointer));
        line.next(self.count as u64);
        self.label.put(line);
    }
}

// The words of the first `count` of a list; of all where there are fewer.
pub fn put_first<T: Words>(line: &mut Line, items: &[T], count: usize)
    ensures { Writes line.old (each T.words (take count items.now)) line.new }
{
    for item in &items[..count.min(items.len())] {
        item.put(line);
    }
}

// The first `count` rows of a list with three numbers for each; all numbers where there are fewer rows.
pub fn put_rows(line: &mut Line, rows: &[u16], count: usize)
    ensures { Writes line.old (numbers_words (take (3 * count) rows.now)) line.new }
{
    if rows.len() / 3 < count {
        put_first(line, rows, rows.len());
    } else {
        put_first(line, rows, 3 * count);
    }
}

// An output: all its octets in hex, or `-` where it has none.
fn put_output(line: &mut Line, octets: &[u8])
    ensures { Writes line.old (output_word octets.now) line.new }
{
    line.octet(b' ');
    if octets.is_empty() {
        line.octet(b'-');
    } else {
        line.hex(octets);
    }
}

// The first `room` octets of a buffer, as an output; all where it has fewer.
pub fn put_part(line: &mut Line, space: &[u8], room: usize)
    ensures { Writes line.old (output_word (take room space.now)) line.new }
{
    put_output(line, &space[..room.min(space.len())]);
}

// A number, a count and a lent output.
pub fn put_counted(line: &mut Line, number: u8, count: usize, space: &[u8], room: usize)
    ensures { Writes line.old ((decimal number ++ next count) ++ output_word (take room space.now)) line.new }
{
    put_two(line, u64::from(number), count as u64);
    put_part(line, space, room);
}

// A decision, and a lent output.
pub fn put_decided(line: &mut Line, d: &Decision, space: &[u8], room: usize)
    ensures { Writes line.old (decision_words d.now ++ output_word (take room space.now)) line.new }
{
    d.put(line);
    put_part(line, space, room);
}

// Two numbers.
pub fn put_two(line: &mut Line, first: u64, second: u64)
    ensures { Writes line.old (decimal first ++ next second) line.new }
{
    line.decimal(first);
    line.next(second);
}

// A word, and a number.
pub fn put_named(line: &mut Line, word: &[u8], number: u64)
    ensures { Writes line.old (word.now ++ next number) line.new }
{
    line.word(word);
    line.next(number);
}

// The word of a case that does not parse.
pub fn put_broken(line: &mut Line)
    ensures { Writes line.old broken_word line.new }
{
    line.word(b"BROKEN");
}
