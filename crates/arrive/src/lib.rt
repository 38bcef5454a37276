// What both jobs share: checks 1 to 14, 19 to 21 and 23 of a datagram that arrives at a port (document 01, "The order of checks"; document 02, Wishes 3
// and 10).
#![tactic(auto)]

ghost use Rattle.std.specs.Prelude.{◌≡◌, true, ◌≤◌, length, Some};
ghost use Rattle.area.specs.Area.{walk_of, octets_at, placed_within, WholeAt};
ghost use Rattle.area.specs.declared.Kind.TheVariants.{Basic, Cipso};
ghost use Rattle.port.specs.Port.{port_sound};
ghost use Rattle.decision.specs.Verdict.{stopped_by};
ghost use Rattle.arrive.specs.Verdict.{Arrives};
ghost use Rattle.arrive.specs.Checks.{first_of, basic_in};
ghost use Rattle.arrive.specs.Stages.{ArrivesAt, basic_checks, is_open, before_range, basic_read, held_between};

use area::{bad_area, option_at, walk_area};
use basic::{BAD_BASIC, BASIC_TYPE, BasicReading, Way, passes_way, read_basic};
use decision::{HEADER_OCTETS, Passed, Verdict, barred, faulty, go_on, missing, silent};
use label::Label;
use label_keys::{Look, label_keys, look_between, runs_between};
use option::{CATEGORIES_AT, OPTION_TYPE};
use option_read::read_keys;
use option_slack::stops_slack;
use port::{Port, port_sound};

// Checks 1 to 14, 19 to 21 and 23 at a port: what passed, with the runs of the label that the datagram arrives with as keys at the head of the list, or the
// refusal; 1 for a list of under 120 keys too.
pub fn arrive(port: Port, area: &[u8], code: u8, keys: &mut [u32]) -> Verdict
    ensures { Arrives port area.now code keys.old keys.new result }
{
    if bad_area(area.len()) {
        return silent(1);
    }
    if keys.len() < Label::MAX_RUNS {
        return silent(1);
    }
    if !port_sound(port) {
        return silent(2);
    }
    let on = port.basic.on;
    match walk_area(area, on) {
        Err(fault) => faulty(fault.number, (HEADER_OCTETS + fault.at) as u8),
        Ok(met) => {
            let arrived = arrive_at(port, area, met.label, code, keys);
            if !on {
                // no option 130 was met
                return arrived;
            }
            check_basic(arrived, port.basic.receiving, area, met.basic, code)
        }
    }
}

// Whether the check of a number has applied.
pub fn stopped_by(verdict: Verdict, number: u8) -> bool
    ensures { result ≡ stopped_by number verdict }
{
    match verdict {
        Ok(_) => false,
        Err(refusal) => refusal.number == number,
    }
}

// Whether 19 to 21 are still to be asked: no check applies, or 14, which comes after them.
pub fn is_open(verdict: Verdict) -> bool
    ensures { result ≡ is_open verdict }
{
    match verdict {
        Ok(_) => true,
        Err(refusal) => refusal.number == 14,
    }
}

// Whether what passed lies between two labels by its level and keys: a first look at the range, and a pass where it leaves the answer open. Inlined, so that
// no label is copied for the call.
#[inline(always)]
pub fn held_between(passed: Passed, lowest: Label, highest: Label, keys: &[u32]) -> bool
    ensures { result ≡ held_between lowest highest passed keys.now }
{
    match look_between(keys, passed.count, passed.level, lowest, highest) {
        Look::Within => true,
        Look::Outside => false,
        Look::Open => runs_between(keys, passed.count, lowest, highest),
    }
}

// The level and flags of the area's option 130; none where its walk meets none, or one that is not valid.
pub fn find_basic(area: &[u8]) -> Option<BasicReading>
    ensures { result ≡ basic_read (octets_at (basic_in (walk_of true area.now)) area.now) }
{
    let met = walk_area(area, true).ok()?;
    let at = met.basic?;
    read_basic(option_at(area, at))
}

// Checks 6 to 13 and 23, and 14, with the place of the option 134.
fn arrive_at(port: Port, area: &[u8], place: Option<usize>, code: u8, keys: &mut [u32]) -> Verdict
    requires area_len_bound { length area.now ≤ 40 }
    requires placed_in { placed_within Cipso place area.now }
    requires port_value { port_sound port ≡ true }
    requires in_bounds { 120 ≤ length keys.old }
    ensures { ArrivesAt place port area.now code keys.old keys.new result }
{
    match place {
        None => {
            if port.required {
                return missing(6, OPTION_TYPE);
            }
            // the assigned label of a sound port is in its range
            let label = port.assigned;
            label_keys(label, keys);
            go_on(label.level, label.count)
        }
        Some(at) => read_at(port, area, at, code, keys),
    }
}

// Checks 7 to 13 and 23, and 14, with an option 134 at an octet.
fn read_at(port: Port, area: &[u8], at: usize, code: u8, keys: &mut [u32]) -> Verdict
    requires area_len_bound { length area.now ≤ 40 }
    requires whole_at { WholeAt Cipso area.now at }
    requires port_value { port_sound port ≡ true }
    requires in_bounds { 120 ≤ length keys.old }
    ensures { ArrivesAt (Some at) port area.now code keys.old keys.new result }
{
    let octets = option_at(area, at);
    let read = read_keys(octets, port.domain, &mut keys[..]);
    if stops_slack(port.strict, read, octets) {
        return faulty(23, (HEADER_OCTETS + (at + CATEGORIES_AT)) as u8);
    }
    match read {
        Err(fault) => faulty(fault.number, (HEADER_OCTETS + (at + fault.at)) as u8),
        Ok(held) => {
            let passed = Passed {
                level: held.level,
                count: held.count,
            };
            if !held_between(passed, port.lowest, port.highest, &keys[..]) {
                return barred(14, code);
            }
            Ok(passed)
        }
    }
}

// Checks 19 to 21 of a port that reads option 130, which come before 14, with the place of the option 130.
fn check_basic(arrived: Verdict, way: Way, area: &[u8], place: Option<usize>, code: u8) -> Verdict
    requires area_len_bound { length area.now ≤ 40 }
    requires placed_in { placed_within Basic place area.now }
    ensures { result ≡ before_range arrived (first_of (basic_checks place true way area.now code)) }
{
    if !is_open(arrived) {
        return arrived;
    }
    match place {
        None => missing(20, BASIC_TYPE),
        Some(at) => {
            let Some(read) = read_basic(option_at(area, at)) else {
                return faulty(BAD_BASIC, (HEADER_OCTETS + at) as u8);
            };
            if !passes_way(way, read.level, read.flags) {
                return barred(21, code);
            }
            arrived
        }
    }
}
