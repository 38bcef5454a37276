// Forward between any two ports (document 01, "The order of checks"): stage after stage, each of which follows what was decided before it.
#![tactic(auto)]

ghost use Rattle.std.specs.Prelude.{◌≡◌, length};
ghost use Rattle.table.specs.Table.{lent};
ghost use Rattle.forward_rules.specs.Forward.{forwarding_of, forward_of, output_of};

use arrive::arrive;
use decision::{Decision, Facts, conclude};
use forward_cross::cross;
use forward_leave::{check_leaving, hold_leaving, hold_sending};
use forward_write::{fit, kept_by, write_area};
use port::{Port, port_sound};
use renumber_keys::MOST_RUNS;
use table::Table;
use table_levels::Levels;

// Decides whether a datagram is forwarded from the arriving to the leaving port, whatever they are, and writes its leaving area.
pub fn forward_any(
    arriving: Port,
    leaving: Port,
    table: Table,
    rows: &[u16],
    levels: Levels,
    facts: Facts,
    area: &[u8],
    out: &mut [u8],
) -> Decision
    ensures value { result ≡ forward_of (forwarding_of arriving leaving (lent table rows.now) levels facts area.now (length out.old)) }
    ensures out_after { out.new ≡ output_of (forwarding_of arriving leaving (lent table rows.now) levels facts area.now (length out.old)) out.old }
{
    let mut own = [0u32; 120];
    let mut far = [0u32; MOST_RUNS];
    // before anything is written, so that the port is not copied for a later look
    let sound = port_sound(leaving);
    let arrived = arrive(arriving, area, 9, &mut own);
    let ready = check_leaving(arrived, out.len(), sound);
    let sent = hold_sending(
        ready,
        arriving.basic.on,
        leaving.basic.on,
        leaving.basic.sending,
        area,
    );
    let crossed = cross(
        sent,
        arriving.domain,
        leaving.domain,
        table,
        rows,
        levels,
        &own,
        &mut far,
    );
    let held = hold_leaving(
        crossed,
        leaving.unlabelled,
        leaving.default,
        leaving.lowest,
        leaving.highest,
        &far,
    );
    let kept = kept_by(held, area);
    let verdict = fit(held, leaving.unlabelled, leaving.spellings, kept, &far);
    let count = write_area(
        verdict,
        leaving.unlabelled,
        leaving.domain,
        leaving.spellings,
        kept,
        area,
        &far,
        &mut out[..],
    );
    conclude(verdict, leaving.domain, facts, count, &far)
}
