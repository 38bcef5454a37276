// Keys: runs of categories as single numbers in a lent list, made of a label and into one, and held against the range from a lowest to a highest
// label.
#![tactic(auto)]

ghost use Rattle.std.specs.Prelude.{◌≡◌, map, ◌++◌, ◌/◌, ◌%◌, ◌≤◌, length, take, drop};
ghost use Rattle.label.specs.Runs.{run, passes};
ghost use Rattle.label.specs.Label.{used, label_of};
ghost use Rattle.label_keys.specs.Keys.{run_key, key_runs, label_from, keys_fit, with_keys};
ghost use Rattle.label_keys.specs.Range.{look_of, runs_between};

use label::{AsRun, Label, Run, runs_within};

// What a first look at a range says: the answer, or that the runs are to be gone through.
#[derive(Clone, Copy)]
pub enum Look {
    Within,
    Outside,
    Open,
}

// The label with the runs of the first n keys, all where there are fewer; the all-zero label where it has no room for them.
pub fn to_label(keys: &[u32], n: usize, domain: u32, level: u8) -> Label
    ensures { result ≡ label_from domain level (key_runs (take n keys.now)) }
{
    let mut count = n.min(keys.len());
    let mut owner = domain;
    let mut rank = level;
    // one call, so that the label is built where it is returned
    if Label::MAX_RUNS < count {
        count = 0;
        owner = 0;
        rank = 0;
    }
    fill_label(&keys[..count], owner, rank)
}

// The same for no more keys than a label holds.
fn fill_label(keys: &[u32], domain: u32, level: u8) -> Label
    requires { length keys.now ≤ 120 }
    ensures { result ≡ label_of domain level (key_runs keys.now) }
{
    let mut out = Label {
        domain: domain,
        level: level,
        count: keys.len(),
        runs: [Run { low: 0, high: 0 }; Label::MAX_RUNS],
    };
    for (i, &key) in keys.iter().enumerate() {
        out.runs[i] = Run::from(key);
    }
    out
}

// The label's runs as keys at the head of the list, and whether it has over 120 or more than the list has places for: then nothing is written.
#[tactic(auto, unfolding(crate::specs::Keys::keys_fit, crate::specs::Keys::with_keys))]
pub fn label_keys(label: Label, keys: &mut [u32]) -> bool
    ensures { (result ≡ keys_fit label keys.old) × (keys.new ≡ with_keys label keys.old) }
{
    let n = label.count;
    if Label::MAX_RUNS < n {
        return false;
    }
    if keys.len() < n {
        return false;
    }
    write_keys(label, keys);
    true
}

fn write_keys(label: Label, keys: &mut [u32])
    requires { (label.count ≤ 120) × (label.count ≤ length keys.old) }
    ensures { keys.new ≡ map run_key (used label) ++ drop label.count keys.old }
{
    for (i, &run) in label.runs[..label.count].iter().enumerate() {
        keys[i] = u32::from(run);
    }
}

// The key of a run.
pub fn run_key(x: Run) -> u32
    ensures { (result ≡ run_key x) × (result / 65536 ≡ x.low) × (result % 65536 ≡ x.high) }
{
    u32::from(x)
}

// The key of the run from low to high.
pub fn key_of(low: u16, high: u16) -> u32
    ensures { result ≡ run_key (run low high) }
{
    u32::from(Run { low, high })
}

// What shows without a loop of whether a level and the runs of the first n keys lie between two labels. A caller looks first and goes through
// the runs by a call of its own: in one function the loop would keep both labels copied.
pub fn look_between(keys: &[u32], n: usize, level: u8, lowest: Label, highest: Label) -> Look
    ensures { result ≡ look_of lowest highest level (key_runs (take n keys.now)) }
{
    if level < lowest.level {
        return Look::Outside;
    }
    if highest.level < level {
        return Look::Outside;
    }
    if lowest.count != 0 {
        return Look::Open;
    }
    let m = n.min(keys.len());
    if m == 0 {
        return Look::Within;
    }
    if highest.count != 1 {
        return Look::Open;
    }
    let over = highest.runs[0];
    let first = keys[0];
    if first.low() < over.low {
        return Look::Outside;
    }
    let last = keys[m - 1];
    if over.high < last.high() {
        return Look::Outside;
    }
    Look::Within
}

// The runs of the first n keys gone through: whether those of the lowest label lie in them and they in those of the highest.
#[tactic(auto, using(crate::proofs::Keys::take_min), unfolding(crate::specs::Range::runs_between))]
pub fn runs_between(keys: &[u32], n: usize, lowest: Label, highest: Label) -> bool
    ensures { result ≡ runs_between lowest highest (key_runs (take n keys.now)) }
{
    if Label::MAX_RUNS < lowest.count {
        return false;
    }
    if Label::MAX_RUNS < highest.count {
        return false;
    }
    let keys = &keys[..n.min(keys.len())];
    label_in_keys(lowest, keys) && keys_in_label(keys, highest)
}

// Whether the label's runs pass in those of the keys: a call of its own, so that the label is copied only where its runs are gone through.
#[tactic(auto, using(crate::proofs::Keys::passes_used_keys))]
fn label_in_keys(label: Label, keys: &[u32]) -> bool
    requires { label.count ≤ 120 }
    ensures { result ≡ passes (used label) (key_runs keys.now) }
{
    runs_within(&label.runs[..label.count], keys).within
}

// Whether the runs of the keys pass in the label's.
#[tactic(auto, using(crate::proofs::Keys::passes_keys_used))]
fn keys_in_label(keys: &[u32], label: Label) -> bool
    requires { label.count ≤ 120 }
    ensures { result ≡ passes (key_runs keys.now) (used label) }
{
    runs_within(keys, &label.runs[..label.count]).within
}
