// The leaving port's checks (document 01, "The order of checks": 1, 2 and 17; document 02, Wish 3: 21): each follows what was decided before it.
#![tactic(auto)]

ghost use Rattle.std.specs.Prelude.{◌≡◌, true, cond};
ghost use Rattle.std.proofs.Math.Option.{some};
ghost use Rattle.area.specs.Area.{walk_of, octets_at};
ghost use Rattle.arrive.specs.Checks.{barred, basic_in};
ghost use Rattle.arrive.specs.Stages.{before_range, basic_read};
ghost use Rattle.forward_leave.specs.Departure.{recorded_by, sent_by, held_by_range};

use area::AREA_OCTETS;
use arrive::{find_basic, held_between, is_open, stopped_by};
use basic::{Way, passes_way};
use decision::{NETWORK_PROHIBITED, Verdict, barred, silent};
use label::Label;

// Check 1 of the output, and 2 of the leaving port: before 3 to 21 of what arrived.
pub fn check_leaving(arrived: Verdict, room: usize, sound: bool) -> Verdict
    ensures { result ≡ recorded_by arrived room sound }
{
    if stopped_by(arrived, 1) {
        return arrived;
    }
    if room < AREA_OCTETS {
        return silent(1);
    }
    if !sound {
        return silent(2);
    }
    arrived
}

// Check 21 of the leaving port, which comes before 14; `from` and `on` say whether the arriving and the leaving port read option 130.
pub fn hold_sending(ready: Verdict, from: bool, on: bool, sending: Way, area: &[u8]) -> Verdict
    ensures { result ≡ sent_by ready from on sending (basic_read (octets_at (basic_in (walk_of true area.now)) area.now)) }
{
    if !from {
        if !on {
            return ready;
        }
        return bar_basic(ready);
    }
    if !on {
        return bar_basic(ready);
    }
    // copied here, where both ports read it, and not for every datagram
    let way = sending;
    match find_basic(area) {
        Some(read) if passes_way(way, read.level, read.flags) => ready,
        _ => bar_basic(ready),
    }
}

// 21, where no check before it applies.
pub fn bar_basic(ready: Verdict) -> Verdict
    ensures { result ≡ before_range ready (some (barred 21 9)) }
{
    if !is_open(ready) {
        return ready;
    }
    barred(21, NETWORK_PROHIBITED)
}

// Check 17: toward unlabelled hosts the range is the default label alone.
pub fn hold_leaving(
    crossed: Verdict,
    unlabelled: bool,
    default: Label,
    lowest: Label,
    highest: Label,
    keys: &[u32],
) -> Verdict
    ensures { result ≡ held_by_range crossed (cond unlabelled default lowest) (cond unlabelled default highest) keys.now }
{
    let passed = crossed?;
    let held = if unlabelled {
        held_between(passed, default, default, keys)
    } else {
        held_between(passed, lowest, highest, keys)
    };
    if !held {
        return barred(17, NETWORK_PROHIBITED);
    }
    crossed
}
