// Spelling: the one shortest option of a label among the permitted ones is chosen and written (document 01, "Option and tags" and "Asked
// alone"; document 02, Wish 5).
#![tactic(auto)]

ghost use Rattle.std.specs.Prelude.{◌≡◌, ◌&&◌, map, ◌++◌, ◌+◌, ◌≤◌, length, take, drop};
ghost use Rattle.label.specs.Runs.{spaced, unused};
ghost use Rattle.label.specs.Label.{used};
ghost use Rattle.label_keys.specs.Keys.{key_runs, run_key};
ghost use Rattle.option_spell.specs.Spelling.{number_of, told, row_of, spelling_answer, spelling_out};
ghost use Rattle.option_spell.specs.Stages.{answer_of};

use label::{Label, Run, word};
use label_keys::run_key;
use option::{OPTION_OCTETS, Spellings};
use option_write::spell_keys;

// So many runs are few: spelled without a copy of the whole label.
const FEW_RUNS: usize = 16;

// Why a label is not spelled: an output of under 40 octets, an ill-formed label, or one that no permitted option means.
#[derive(Clone, Copy)]
pub enum SpellError {
    Short,
    IllFormed,
    Unspelled,
}

// The number of the refusal.
impl From<SpellError> for u8 {
    ghost from_gives = { λ e n. n ≡ number_of e };

    fn from(error: SpellError) -> u8 {
        match error {
            SpellError::Short => 1,
            SpellError::IllFormed => 2,
            SpellError::Unspelled => 18,
        }
    }
}

// Spells the label alone, under a set of permitted spellings: the option is written, with zeros up to octet 39, and its length answered; or nothing is
// written and the refusal says why.
pub fn spell_label(label: Label, permitted: Spellings, out: &mut [u8]) -> Result<usize, SpellError>
    ensures { (result ≡ told (spelling_answer permitted label (length out.old))) × (out.new ≡ spelling_out permitted label out.old) }
{
    if out.len() < OPTION_OCTETS {
        return Err(SpellError::Short);
    }
    let n = label.count;
    if n <= 1 {
        return spell_one(label, permitted, out);
    }
    if label.domain == 0 {
        return Err(SpellError::IllFormed);
    }
    if n <= FEW_RUNS {
        return spell_few(label, permitted, out);
    }
    if Label::MAX_RUNS < n {
        return Err(SpellError::IllFormed);
    }
    spell_many(label, permitted, out)
}

// What spelling answers as a row: number 0 and the option's length; or the number of a refusal and 0.
pub fn row_of(spelled: Result<usize, SpellError>) -> (u8, usize)
    ensures { (result.0 ≡ (row_of spelled).number) × (result.1 ≡ (row_of spelled).count) }
{
    match spelled {
        Ok(count) => (0, count),
        Err(error) => (u8::from(error), 0),
    }
}

// A label of at most one run. No place is indexed by a number that is not fixed, so that the label is not copied.
fn spell_one(label: Label, permitted: Spellings, out: &mut [u8]) -> Result<usize, SpellError>
    requires { (label.count ≤ 1) × (40 ≤ length out.old) }
    ensures { (result ≡ told (spelling_answer permitted label (length out.old))) × (out.new ≡ spelling_out permitted label out.old) }
{
    let n = label.count;
    let run = label.runs[0];
    let key = run_key(run);
    if !label.well_formed() {
        return Err(SpellError::IllFormed);
    }
    let keys = [key; 1];
    let count = spell_keys(
        &keys[..n],
        permitted,
        label.domain,
        label.level,
        &mut out[..],
    );
    answer(count)
}

// A label of few runs: the places that may be used are fixed too, and they alone are copied.
fn spell_few(label: Label, permitted: Spellings, out: &mut [u8]) -> Result<usize, SpellError>
    requires { (label.domain ≡ 0 → ⊥) × (label.count ≤ 16) × (40 ≤ length out.old) }
    ensures { (result ≡ told (spelling_answer permitted label (length out.old))) × (out.new ≡ spelling_out permitted label out.old) }
{
    let n = label.count;
    let mut keys = [0u32; FEW_RUNS];
    front_keys(label, &mut keys);
    let formed = few_formed(&keys, n) & unused_after_few(label);
    if !formed {
        return Err(SpellError::IllFormed);
    }
    let count = spell_keys(
        &keys[..n],
        permitted,
        label.domain,
        label.level,
        &mut out[..],
    );
    answer(count)
}

// A label of any number of runs: all places are copied.
fn spell_many(label: Label, permitted: Spellings, out: &mut [u8]) -> Result<usize, SpellError>
    requires { (label.domain ≡ 0 → ⊥) × (label.count ≤ 120) × (40 ≤ length out.old) }
    ensures { (result ≡ told (spelling_answer permitted label (length out.old))) × (out.new ≡ spelling_out permitted label out.old) }
{
    let n = label.count;
    let mut keys = [0u32; Label::MAX_RUNS];
    if !runs_formed(label, &mut keys) {
        return Err(SpellError::IllFormed);
    }
    let count = spell_keys(
        &keys[..n],
        permitted,
        label.domain,
        label.level,
        &mut out[..],
    );
    answer(count)
}

// By the length of the option that was written: done, or the refusal 18 where none was.
fn answer(count: usize) -> Result<usize, SpellError>
    ensures { result ≡ told (answer_of count) }
{
    if count == 0 {
        return Err(SpellError::Unspelled);
    }
    Ok(count)
}

// The label's first 16 places as keys.
fn front_keys(label: Label, keys: &mut [u32; FEW_RUNS])
    ensures { key_runs keys.new ≡ take 16 label.runs }
{
    for i in 0..FEW_RUNS {
        let run = label.runs[i];
        keys[i] = run_key(run);
    }
}

// Whether the label's places after the first 16 are zero.
fn unused_after_few(label: Label) -> bool
    ensures { result ≡ unused (drop 16 label.runs) }
{
    let mut rest: u32 = 0;
    for run in &label.runs[FEW_RUNS..] {
        rest |= word(*run);
    }
    rest == 0
}

// The form of the first 16 places by their keys: n are used.
fn few_formed(keys: &[u32; FEW_RUNS], n: usize) -> bool
    requires { n ≤ 16 }
    ensures { result ≡ (spaced 0 (key_runs (take n keys.now)) && unused (key_runs (drop n keys.now))) }
{
    let mut good = true;
    let mut floor: u32 = 0;
    for key in &keys[..n] {
        let low = *key / Run::KEY_FACTOR;
        let high = *key % Run::KEY_FACTOR;
        good = good & (floor <= low) & (low <= high);
        floor = high + 2;
    }
    let mut rest: u32 = 0;
    for key in &keys[n..] {
        rest |= *key;
    }
    good & (floor <= Label::PAST_LAST) & (rest == 0)
}

// The form of a label's runs, as crate `label` looks at it, and their keys, in one pass: the label is copied once.
fn runs_formed(label: Label, keys: &mut [u32; Label::MAX_RUNS]) -> bool
    requires { label.count ≤ 120 }
    ensures { (result ≡ (spaced 0 (used label) && unused (drop label.count label.runs))) × (keys.new ≡ map run_key (used label) ++ drop label.count keys.old) }
{
    let n = label.count;
    let mut good = true;
    let mut floor: u32 = 0;
    for i in 0..n {
        let run = label.runs[i];
        let low = run.low as u32;
        let high = run.high as u32;
        good = good & (floor <= low) & (low <= high);
        floor = high + 2;
        keys[i] = run_key(run);
    }
    let mut rest: u32 = 0;
    for run in &label.runs[n..] {
        rest |= word(*run);
    }
    good & (floor <= Label::PAST_LAST) & (rest == 0)
}
