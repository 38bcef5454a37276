// Forward (document 01, "The order of checks" and "The leaving area"; document 02, Wish 3): the checks in their order, and only a forwarding writes.
#![tactic(auto)]

ghost use Rattle.std.specs.Prelude.{◌≡◌, true, ◌≤◌, length, Some};
ghost use Rattle.area.specs.Area.{WholeAt};
ghost use Rattle.area.specs.declared.Kind.TheVariants.{Cipso};
ghost use Rattle.port_usual.specs.Usual.{usual_port};
ghost use Rattle.arrive.specs.Verdict.{Arrives};
ghost use Rattle.arrive.specs.Stages.{ArrivesAt, held_between};
ghost use Rattle.table.specs.Table.{lent};
ghost use Rattle.forward_rules.specs.Forward.{forwarding_of, forward_of, output_of};
ghost use Rattle.forward_leave.specs.Departure.{held_by_range};

use area::{bad_area, option_at, walk_area};
use decision::{
    Decision, Facts, HEADER_OCTETS, NETWORK_PROHIBITED, Passed, Verdict, barred, conclude, faulty,
    missing, silent,
};
use forward_any::forward_any;
use forward_cross::cross;
use forward_leave::check_leaving;
use forward_write::{fit, kept_by, write_area};
use label::Label;
use label_keys::{Look, look_between};
use option::OPTION_TYPE;
use option_read::read_keys;
use port::Port;
use port_usual::{is_usual, looks_usual};
use table::{FEW_ROWS, Table};
use table_levels::Levels;

// Decides whether a datagram is forwarded from the arriving to the leaving port, and writes its leaving area. Of ports as most are, fixed places say all
// that is asked, and nothing of them is copied.
pub fn forward(
    arriving: Port,
    leaving: Port,
    table: Table,
    rows: &[u16],
    levels: Levels,
    facts: Facts,
    area: &[u8],
    out: &mut [u8],
) -> Decision
    ensures value { result ≡ forward_of (forwarding_of arriving leaving (lent table rows.now) levels facts area.now (length out.old)) }
    ensures out_after { out.new ≡ output_of (forwarding_of arriving leaving (lent table rows.now) levels facts area.now (length out.old)) out.old }
{
    if looks_usual(arriving) && looks_usual(leaving) {
        if is_usual(arriving) && is_usual(leaving) && (table.count <= FEW_ROWS) {
            return forward_usual(arriving, leaving, table, rows, levels, facts, area, out);
        }
    }
    forward_any(arriving, leaving, table, rows, levels, facts, area, out)
}

// The same between two usual ports: neither reads option 130 or is strict, so 19 to 21 and 23 are not asked, and the first look at a range is the last.
fn forward_usual(
    arriving: Port,
    leaving: Port,
    table: Table,
    rows: &[u16],
    levels: Levels,
    facts: Facts,
    area: &[u8],
    out: &mut [u8],
) -> Decision
    requires { (usual_port arriving ≡ true) × (usual_port leaving ≡ true) × (table.count ≤ 64) }
    ensures value { result ≡ forward_of (forwarding_of arriving leaving (lent table rows.now) levels facts area.now (length out.old)) }
    ensures out_after { out.new ≡ output_of (forwarding_of arriving leaving (lent table rows.now) levels facts area.now (length out.old)) out.old }
{
    let mut own = [0u32; 120];
    let mut far = [0u32; 184];
    let arrived = arrive_usual(arriving, area, &mut own);
    let ready = check_leaving(arrived, out.len(), true);
    let crossed = cross(
        ready,
        arriving.domain,
        leaving.domain,
        table,
        rows,
        levels,
        &own,
        &mut far,
    );
    let held = hold_usual(crossed, leaving.lowest, leaving.highest, &far);
    let kept = kept_by(held, area);
    let verdict = fit(held, false, leaving.spellings, kept, &far);
    let count = write_area(
        verdict,
        false,
        leaving.domain,
        leaving.spellings,
        kept,
        area,
        &far,
        &mut out[..],
    );
    conclude(verdict, leaving.domain, facts, count, &far)
}

// Checks 1 to 14 at a usual port, with the keys as `arrive` leaves them.
fn arrive_usual(port: Port, area: &[u8], keys: &mut [u32; 120]) -> Verdict
    requires { usual_port port ≡ true }
    ensures { Arrives port area.now 9 keys.old keys.new result }
{
    if bad_area(area.len()) {
        return silent(1);
    }
    match walk_area(area, false) {
        Err(fault) => faulty(fault.number, (HEADER_OCTETS + fault.at) as u8),
        Ok(met) => match met.label {
            None => missing(6, OPTION_TYPE),
            Some(at) => read_usual(port, area, at, keys),
        },
    }
}

// Checks 7 to 14 with an option 134 at an octet.
fn read_usual(port: Port, area: &[u8], at: usize, keys: &mut [u32; 120]) -> Verdict
    requires area_len_bound { length area.now ≤ 40 }
    requires whole_at { WholeAt Cipso area.now at }
    requires usual { usual_port port ≡ true }
    ensures { ArrivesAt (Some at) port area.now 9 keys.old keys.new result }
{
    match read_keys(option_at(area, at), port.domain, &mut keys[..]) {
        Err(fault) => faulty(fault.number, (HEADER_OCTETS + (at + fault.at)) as u8),
        Ok(held) => {
            let passed = Passed {
                level: held.level,
                count: held.count,
            };
            if !lies_usual(passed, port.lowest, port.highest, &keys[..]) {
                return barred(14, NETWORK_PROHIBITED);
            }
            Ok(passed)
        }
    }
}

// Check 17 toward a usual port.
fn hold_usual(crossed: Verdict, lowest: Label, highest: Label, keys: &[u32]) -> Verdict
    requires { (lowest.count ≡ 0) × (highest.count ≤ 1) }
    ensures { result ≡ held_by_range crossed lowest highest keys.now }
{
    let passed = crossed?;
    if !lies_usual(passed, lowest, highest, keys) {
        return barred(17, NETWORK_PROHIBITED);
    }
    Ok(passed)
}

// Whether a level and keys lie in a range from no categories to those of at most one run: what a first look leaves open lies outside.
fn lies_usual(passed: Passed, lowest: Label, highest: Label, keys: &[u32]) -> bool
    requires { (lowest.count ≡ 0) × (highest.count ≤ 1) }
    ensures { result ≡ held_between lowest highest passed keys.now }
{
    match look_between(keys, passed.count, passed.level, lowest, highest) {
        Look::Within => true,
        Look::Outside => false,
        Look::Open => false,
    }
}
