// Functions for C and Rust, on numbers and octets. A slice passes as a pointer and a length; what is lent to one call must not overlap.
//
// Every function answers the paper's number and writes its answer's numbers into what is lent. A label stands there as its domain, level and
// count, and its runs as keys, low · 65536 + high, in a list of their own: what `inglebreek_read` writes, `inglebreek_spell` takes.
#![tactic(auto)]

ghost use Rattle.std.specs.Prelude.{◌≡◌, ◌≤◌, length};
ghost use Rattle.bench_exports.specs.Answers.{with_numbers, label_of_keys, facts_of, sample_forwarding, Reads, Spells, Forwards};

use decision::Facts;
use forward::forward;
use label::Label;
use label_keys::{label_keys, to_label};
use option::Spellings;
use option_read::read_option;
use option_spell::spell_label;
use sample_records::{arriving, leaving, levels, rows, table};

// How many numbers an answer has.
const READING_NUMBERS: usize = 5;

const SPELLING_NUMBERS: usize = 2;

const DECISION_NUMBERS: usize = 8;

// Reads one option. `answer` gets number, pointer, domain, level and count of runs, `runs` the runs; 1 and nothing where `answer` has under 5
// places or `runs` under 120.
pub fn inglebreek_read(octets: &[u8], answer: &mut [u64], runs: &mut [u32]) -> u8
    ensures { Reads octets.now answer.old runs.old answer.new runs.new result }
{
    if answer.len() < READING_NUMBERS {
        return 1;
    }
    if runs.len() < Label::MAX_RUNS {
        return 1;
    }
    match read_option(octets) {
        Ok(label) => {
            let numbers = [
                0,
                0,
                label.domain as u64,
                label.level as u64,
                label.count as u64,
            ];
            put_numbers(answer, &numbers);
            label_keys(label, runs);
            0
        }
        Err(fault) => {
            let numbers = [fault.number as u64, fault.at as u64, 0, 0, 0];
            put_numbers(answer, &numbers);
            fault.number
        }
    }
}

// Spells the label of a domain, a level and runs, as many as are lent. `answer` gets number and length; 1 and nothing where it has under 2 places.
pub fn inglebreek_spell(
    domain: u32,
    level: u8,
    runs: &[u32],
    out: &mut [u8],
    answer: &mut [u64],
) -> u8
    ensures { Spells (label_of_keys domain level runs.now) out.old answer.old out.new answer.new result }
{
    if answer.len() < SPELLING_NUMBERS {
        return 1;
    }
    let label = to_label(runs, runs.len(), domain, level);
    let permitted = Spellings::usual();
    match spell_label(label, permitted, out) {
        Ok(length) => {
            put_numbers(answer, &[0, length as u64]);
            0
        }
        Err(error) => {
            let number = u8::from(error);
            put_numbers(answer, &[number as u64, 0]);
            number
        }
    }
}

// Forwards an area through the sample's records; the five facts are those of `Facts`, in its order. `answer` gets number, type, code, pointer, count, domain, level and count of
// runs of the leaving label, `runs` its runs; 1 and nothing where `answer` has under 8 places or `runs` under 120.
pub fn inglebreek_forward(
    error: bool,
    group: bool,
    link: bool,
    fragment: bool,
    source: bool,
    area: &[u8],
    out: &mut [u8],
    answer: &mut [u64],
    runs: &mut [u32],
) -> u8
    ensures { Forwards (sample_forwarding (facts_of error group link fragment source) area.now (length out.old)) out.old answer.old runs.old out.new answer.new runs.new result }
{
    if answer.len() < DECISION_NUMBERS {
        return 1;
    }
    if runs.len() < Label::MAX_RUNS {
        return 1;
    }
    let facts = Facts {
        error: error,
        group: group,
        link: link,
        fragment: fragment,
        source: source,
    };
    let lent = rows();
    let d = forward(
        arriving(),
        leaving(),
        table(),
        &lent,
        levels(),
        facts,
        area,
        out,
    );
    let label = d.label;
    let numbers = [
        d.number as u64,
        d.kind as u64,
        d.code as u64,
        d.pointer as u64,
        d.count as u64,
        label.domain as u64,
        label.level as u64,
        label.count as u64,
    ];
    put_numbers(answer, &numbers);
    label_keys(label, runs);
    d.number
}

// Numbers at the head of what is lent.
#[tactic(auto, unfolding(crate::specs::Answers::with_numbers))]
fn put_numbers(lent: &mut [u64], numbers: &[u64])
    requires { length numbers.now ≤ length lent.old }
    ensures { lent.new ≡ with_numbers numbers.now lent.old }
{
    lent[..numbers.len()].copy_from_slice(numbers);
}
