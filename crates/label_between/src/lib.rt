// A level and runs held against a range whose two ends are a level and a lent list of keys each: nothing of a label is copied.
#![tactic(auto)]

ghost use Rattle.std.specs.Prelude.{◌≡◌, ◌≤◌, length, take};
ghost use Rattle.label.specs.Runs.{passes};
ghost use Rattle.label_keys.specs.Keys.{key_runs};
ghost use Rattle.label_between.specs.Bounds.{lies_between, pass_between};

use label::{AsRun, Label, Run, runs_within};

// Whether a level and the runs of the first n keys, all where there are fewer, lie between two ends: a first look, and a pass where it leaves the
// answer open.
pub fn lies_between(
    keys: &[u32],
    n: usize,
    level: u8,
    low: u8,
    lows: &[u32],
    high: u8,
    highs: &[u32],
) -> bool
    ensures { result ≡ lies_between low lows.now high highs.now level (key_runs (take n keys.now)) }
{
    if level < low {
        return false;
    }
    if high < level {
        return false;
    }
    let keys = &keys[..n.min(keys.len())];
    if lows.len() != 0 {
        return pass_between(keys, lows, highs);
    }
    if keys.len() == 0 {
        return true;
    }
    if highs.len() != 1 {
        return pass_between(keys, lows, highs);
    }
    let over = Run::from(highs[0]);
    let first = keys[0];
    if first.low() < over.low {
        return false;
    }
    let last = keys[keys.len() - 1];
    last.high() <= over.high
}

// The runs gone through: whether those of the lower end lie in them and they in those of the upper; no where an end has over 120.
#[tactic(auto, using(crate::proofs::Bounds::pass_is))]
fn pass_between(keys: &[u32], lows: &[u32], highs: &[u32]) -> bool
    ensures { result ≡ pass_between lows.now highs.now (key_runs keys.now) }
{
    if Label::MAX_RUNS < lows.len() {
        return false;
    }
    if Label::MAX_RUNS < highs.len() {
        return false;
    }
    runs_within(lows, keys).within && runs_within(keys, highs).within
}
