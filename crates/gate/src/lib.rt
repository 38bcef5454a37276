// A port in a few numbers, a gate, with its runs as lent keys and its flag fields as a lent list, and the stages of a decision on them. Nothing is
// asked here of whether a port is sound: what these functions answer is said of any numbers, and of a sound port it is the port's own checks.
#![tactic(auto)]

ghost use Rattle.std.specs.Prelude.{◌≡◌, true, cond, List, [], ℕ, ◌≤◌, length, Some};
ghost use Rattle.area.specs.Area.{walk_of, octets_at, placed_within, WholeAt};
ghost use Rattle.area.specs.declared.Kind.TheVariants.{Basic, Cipso};
ghost use Rattle.basic.specs.Settings.{among, passes_way};
ghost use Rattle.port.specs.Port.{lowest_out, highest_out};
ghost use Rattle.arrive.specs.Checks.{first_of, basic_in};
ghost use Rattle.arrive.specs.Stages.{basic_checks, before_range, basic_read};
ghost use Rattle.forward_leave.specs.Departure.{sent_by, held_by_range};
ghost use Rattle.gate.specs.Gate.{gate_of, way_of, port_in};
ghost use Rattle.gate.specs.Acts.{Acts};
ghost use Rattle.gate.specs.Stages.{ActsAt};

use area::{bad_area, option_at, walk_area};
use arrive::{find_basic, is_open};
use basic::{BAD_BASIC, BASIC_TYPE, BasicReading, at_most, read_basic};
use decision::{
    HEADER_OCTETS, NETWORK_PROHIBITED, Verdict, barred, faulty, go_on, missing, silent,
};
use forward_leave::bar_basic;
use label::Label;
use label_between::lies_between;
use lists::copy_list;
use option::{CATEGORIES_AT, OPTION_TYPE, Spellings};
use option_read::read_keys;
use option_slack::stops_slack;
use port::Port;

// All of a port but its lists.
#[derive(Clone, Copy)]
pub struct Gate {
    pub domain: u32,
    pub required: bool,
    // whether it reads option 130
    pub on: bool,
    pub unlabelled: bool,
    // whether slack spellings are stopped
    pub strict: bool,
    pub spellings: Spellings,
    // levels of the range, of the assigned label, of the default label
    pub low: u8,
    pub high: u8,
    pub given: u8,
    pub only: u8,
    // levels of option 130: receiving, sending
    pub least: u8,
    pub most: u8,
    pub first: u8,
    pub last: u8,
}

// The gate of a port.
pub fn gate_of(port: Port) -> Gate
    ensures { result ≡ gate_of port }
{
    let spellings = port.spellings;
    Gate {
        domain: port.domain,
        required: port.required,
        on: port.basic.on,
        unlabelled: port.unlabelled,
        strict: port.strict,
        spellings: spellings,
        low: port.lowest.level,
        high: port.highest.level,
        given: port.assigned.level,
        only: port.default.level,
        least: port.basic.receiving.lowest,
        most: port.basic.receiving.highest,
        first: port.basic.sending.lowest,
        last: port.basic.sending.highest,
    }
}

// Checks 1 of the area, 3 to 14, 19 to 21 and 23 at a gate with its lists: what a port answers that is taken for sound. The default label and what may be sent of
// option 130 are not asked.
pub fn arrive_gate(
    gate: Gate,
    lows: &[u32],
    highs: &[u32],
    given: &[u32],
    fields: &[u16],
    area: &[u8],
    code: u8,
    keys: &mut [u32],
) -> Verdict
    ensures { (only sends : List ℕ) → Acts (port_in gate lows.now highs.now given.now only fields.now sends) area.now code keys.old keys.new result }
{
    if bad_area(area.len()) {
        return silent(1);
    }
    if keys.len() < Label::MAX_RUNS {
        return silent(1);
    }
    let on = gate.on;
    match walk_area(area, on) {
        Err(fault) => faulty(fault.number, (HEADER_OCTETS + fault.at) as u8),
        Ok(met) => {
            let arrived = arrive_at(gate, lows, highs, given, area, met.label, code, keys);
            if !on {
                // no option 130 was met
                return arrived;
            }
            check_basic(
                arrived, gate.least, gate.most, fields, area, met.basic, code,
            )
        }
    }
}

// Checks 6 to 13 and 23, and 14, with the place of the option 134.
fn arrive_at(
    gate: Gate,
    lows: &[u32],
    highs: &[u32],
    given: &[u32],
    area: &[u8],
    place: Option<usize>,
    code: u8,
    keys: &mut [u32],
) -> Verdict
    requires area_len_bound { length area.now ≤ 40 }
    requires placed_in { placed_within Cipso place area.now }
    requires in_bounds { 120 ≤ length keys.old }
    ensures { (only receives sends : List ℕ) → ActsAt place (port_in gate lows.now highs.now given.now only receives sends) area.now code keys.old keys.new result }
{
    match place {
        None => {
            if gate.required {
                return missing(6, OPTION_TYPE);
            }
            if Label::MAX_RUNS < given.len() {
                return go_on(gate.given, given.len());
            }
            copy_list(given, keys);
            go_on(gate.given, given.len())
        }
        Some(at) => read_at(gate, lows, highs, area, at, code, keys),
    }
}

// Checks 7 to 13 and 23, and 14, with an option 134 at an octet.
fn read_at(
    gate: Gate,
    lows: &[u32],
    highs: &[u32],
    area: &[u8],
    at: usize,
    code: u8,
    keys: &mut [u32],
) -> Verdict
    requires area_len_bound { length area.now ≤ 40 }
    requires whole_at { WholeAt Cipso area.now at }
    requires in_bounds { 120 ≤ length keys.old }
    ensures { (given only receives sends : List ℕ) → ActsAt (Some at) (port_in gate lows.now highs.now given only receives sends) area.now code keys.old keys.new result }
{
    let octets = option_at(area, at);
    let read = read_keys(octets, gate.domain, &mut keys[..]);
    if stops_slack(gate.strict, read, octets) {
        return faulty(23, (HEADER_OCTETS + (at + CATEGORIES_AT)) as u8);
    }
    match read {
        Err(fault) => faulty(fault.number, (HEADER_OCTETS + (at + fault.at)) as u8),
        Ok(held) => {
            if !lies_between(
                &keys[..],
                held.count,
                held.level,
                gate.low,
                lows,
                gate.high,
                highs,
            ) {
                return barred(14, code);
            }
            go_on(held.level, held.count)
        }
    }
}

// Checks 19 to 21 of a gate that reads option 130, which come before 14, with the place of the option 130.
fn check_basic(
    arrived: Verdict,
    low: u8,
    high: u8,
    fields: &[u16],
    area: &[u8],
    place: Option<usize>,
    code: u8,
) -> Verdict
    requires area_len_bound { length area.now ≤ 40 }
    requires placed_in { placed_within Basic place area.now }
    ensures { result ≡ before_range arrived (first_of (basic_checks place true (way_of low high fields.now) area.now code)) }
{
    if !is_open(arrived) {
        return arrived;
    }
    match place {
        None => missing(20, BASIC_TYPE),
        Some(at) => {
            let Some(read) = read_basic(option_at(area, at)) else {
                return faulty(BAD_BASIC, (HEADER_OCTETS + at) as u8);
            };
            if !passes_fields(low, high, fields, read.level, read.flags) {
                return barred(21, code);
            }
            arrived
        }
    }
}

// Check 21 of the leaving gate, which comes before 14; `from` and `on` say whether the arriving and the leaving one read option 130.
pub fn bar_gate(
    ready: Verdict,
    from: bool,
    on: bool,
    low: u8,
    high: u8,
    fields: &[u16],
    area: &[u8],
) -> Verdict
    ensures { result ≡ sent_by ready from on (way_of low high fields.now) (basic_read (octets_at (basic_in (walk_of true area.now)) area.now)) }
{
    if !from {
        if !on {
            return ready;
        }
        return bar_basic(ready);
    }
    if !on {
        return bar_basic(ready);
    }
    match find_basic(area) {
        Some(read) if passes_fields(low, high, fields, read.level, read.flags) => ready,
        _ => bar_basic(ready),
    }
}

// Check 17 toward a gate: toward unlabelled hosts the range is the default label alone.
pub fn hold_gate(
    crossed: Verdict,
    gate: Gate,
    lows: &[u32],
    highs: &[u32],
    only: &[u32],
    keys: &[u32],
) -> Verdict
    ensures { (given receives sends : List ℕ) → result ≡ held_by_range crossed (lowest_out (port_in gate lows.now highs.now given only.now receives sends)) (highest_out (port_in gate lows.now highs.now given only.now receives sends)) keys.now }
{
    let passed = crossed?;
    let held = if gate.unlabelled {
        lies_between(
            keys,
            passed.count,
            passed.level,
            gate.only,
            only,
            gate.only,
            only,
        )
    } else {
        lies_between(
            keys,
            passed.count,
            passed.level,
            gate.low,
            lows,
            gate.high,
            highs,
        )
    };
    if !held {
        return barred(17, NETWORK_PROHIBITED);
    }
    crossed
}

// Whether a level and a flag field pass one way: the level lies in the range by rank, and the flag field is one of the list.
fn passes_fields(low: u8, high: u8, fields: &[u16], level: u8, flags: u16) -> bool
    ensures { result ≡ passes_way (way_of low high fields.now) level flags }
{
    if !at_most(low, level) {
        return false;
    }
    if !at_most(level, high) {
        return false;
    }
    has_field(fields, flags)
}

// Whether the flag field is one of the list, in one pass that does not end early.
fn has_field(fields: &[u16], flags: u16) -> bool
    ensures { result ≡ among fields.now flags }
{
    let mut found = false;
    for field in fields {
        found = found | (*field == flags);
    }
    found
}
