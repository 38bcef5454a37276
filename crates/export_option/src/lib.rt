// Options 134 and 130 for Rust and C: one read, one written.
//
// A label stands in numbers: its domain, its level, and its runs as keys, low · 65536 + high, in a list of their own. What `inglebreek_read_option` writes,
// `inglebreek_spell_label` takes.
#![tactic(auto)]

ghost use Rattle.std.specs.Prelude.{◌≡◌, length};
ghost use Rattle.label_keys.specs.Keys.{with_keys};
ghost use Rattle.option_read.specs.Reading.{reading_of};
ghost use Rattle.option_spell.specs.Spelling.{spelling_answer, spelling_out};
ghost use Rattle.basic.specs.Alone.{basic_reading, basic_writing, basic_out};
ghost use Rattle.export_option.specs.Export.{label_by, spellings_by, read_number, reading_in, write_number, count_in};

use basic::{BAD_BASIC, read_basic, write_basic};
use label_keys::{label_keys, to_label};
use option::Spellings;
use option_read::read_option;
use option_spell::spell_label;

// Reads one option 134 alone. Answers 0 and the label that it means: its domain, its level, the count of its runs, and the runs in `runs`, which stays as it was where it has fewer
// places than the count says (120 are always enough); or answers 3 or 7 to 13, and `pointer` gets the place in the option, the label's numbers 0.
pub fn inglebreek_read_option(
    octets: &[u8],
    pointer: &mut usize,
    domain: &mut u32,
    level: &mut u8,
    count: &mut usize,
    runs: &mut [u32],
) -> u8
    ensures value { result ≡ (reading_of octets.now).number }
    ensures pointer_after { pointer.new ≡ (reading_of octets.now).pointer }
    ensures domain_after { domain.new ≡ (reading_of octets.now).label.domain }
    ensures level_after { level.new ≡ (reading_of octets.now).label.level }
    ensures count_after { count.new ≡ (reading_of octets.now).label.count }
    ensures runs_after { runs.new ≡ with_keys (reading_of octets.now).label runs.old }
{
    match read_option(octets) {
        Ok(label) => {
            *pointer = 0;
            *domain = label.domain;
            *level = label.level;
            *count = label.count;
            label_keys(label, runs);
            0
        }
        Err(fault) => {
            *pointer = fault.at;
            *domain = 0;
            *level = 0;
            *count = 0;
            fault.number
        }
    }
}

// Spells the label of a domain, a level and runs, as many as are lent, in its shortest option 134 among the permitted ones: tag 1 in its shortest form, tag 1 with exactly ten bitmap
// octets, tag 2, tag 5. Answers 0, and `count` gets the option's length; `out` gets the option, with zeros up to octet 39. Or answers 1 for an `out` of under 40 octets, 2 for an
// ill-formed label, 18 for one that no permitted option means; `count` then gets 0, and `out` stays as it was.
pub fn inglebreek_spell_label(
    domain: u32,
    level: u8,
    runs: &[u32],
    shortest: bool,
    ten: bool,
    numbers: bool,
    pairs: bool,
    out: &mut [u8],
    count: &mut usize,
) -> u8
    ensures value { result ≡ (spelling_answer (spellings_by shortest ten numbers pairs) (label_by domain level runs.now) (length out.old)).number }
    ensures out_after { out.new ≡ spelling_out (spellings_by shortest ten numbers pairs) (label_by domain level runs.now) out.old }
    ensures count_after { count.new ≡ (spelling_answer (spellings_by shortest ten numbers pairs) (label_by domain level runs.now) (length out.old)).count }
{
    let permitted = Spellings {
        shortest: shortest,
        ten: ten,
        numbers: numbers,
        pairs: pairs,
    };
    let label = to_label(runs, runs.len(), domain, level);
    match spell_label(label, permitted, out) {
        Ok(length) => {
            *count = length;
            0
        }
        Err(error) => {
            *count = 0;
            u8::from(error)
        }
    }
}

// Reads one option 130 alone. Answers 0, its level octet and its flag field; or 19, and both get 0.
pub fn inglebreek_read_basic(octets: &[u8], level: &mut u8, flags: &mut u16) -> u8
    ensures value { result ≡ read_number (basic_reading octets.now) }
    ensures level_after { level.new ≡ (reading_in (basic_reading octets.now)).level }
    ensures flags_after { flags.new ≡ (reading_in (basic_reading octets.now)).flags }
{
    match read_basic(octets) {
        Some(read) => {
            *level = read.level;
            *flags = read.flags;
            0
        }
        None => {
            *level = 0;
            *flags = 0;
            BAD_BASIC
        }
    }
}

// Writes the shortest option 130 of a level octet and a flag field. Answers 0, and `count` gets the option's length: only so many octets of `out` change. Or answers 1 for an `out` of
// under 5 octets, 19 for a level that is none of the four or flags over 16383; `count` then gets 0, and `out` stays as it was.
pub fn inglebreek_write_basic(level: u8, flags: u16, out: &mut [u8], count: &mut usize) -> u8
    ensures value { result ≡ write_number (basic_writing level flags (length out.old)) }
    ensures out_after { out.new ≡ basic_out level flags out.old }
    ensures count_after { count.new ≡ count_in (basic_writing level flags (length out.old)) }
{
    match write_basic(level, flags, out) {
        Ok(n) => {
            *count = n;
            0
        }
        Err(error) => {
            *count = 0;
            u8::from(error)
        }
    }
}
