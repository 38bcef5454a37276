// Forward between two gates: the stages of `forward_any` on numbers and lent lists, for ports that were checked before. Nothing is asked of whether a
// port is sound: what is answered is said of any numbers, and of two sound ports it is what `forward` decides.
#![tactic(auto)]

ghost use Rattle.std.specs.Prelude.{◌≡◌, List, ℕ};
ghost use Rattle.table.specs.Table.{lent};
ghost use Rattle.gate.specs.Gate.{port_in};
ghost use Rattle.forward_gate.specs.Gated.{Gated};

use decision::{Decision, Facts, NETWORK_PROHIBITED, conclude};
use forward_cross::cross;
use forward_leave::check_leaving;
use forward_write::{fit, kept_by, write_area};
use gate::{Gate, arrive_gate, bar_gate, hold_gate};
use table::Table;
use table_levels::Levels;

// Decides whether a datagram is forwarded from one gate to the other, and writes its leaving area. Of the arriving port the runs of its range and of
// its assigned label and the flag fields that it may receive are asked; of the leaving one the runs of its range and of its default label and the flag
// fields that it may send. `own` and `far` are for the label's keys on both sides: a caller of many datagrams lends them once.
pub fn forward_gates(
    near: Gate,
    lows: &[u32],
    highs: &[u32],
    given: &[u32],
    receives: &[u16],
    beyond: Gate,
    least: &[u32],
    most: &[u32],
    only: &[u32],
    sends: &[u16],
    table: Table,
    rows: &[u16],
    levels: Levels,
    facts: Facts,
    area: &[u8],
    own: &mut [u32],
    far: &mut [u32],
    out: &mut [u8],
) -> Decision
    ensures { (o s g f : List ℕ) → Gated (port_in near lows.now highs.now given.now o receives.now s) (port_in beyond least.now most.now g only.now f sends.now) (lent table rows.now) levels facts area.now own.old own.new far.old far.new out.old out.new result }
{
    let arrived = arrive_gate(
        near,
        lows,
        highs,
        given,
        receives,
        area,
        NETWORK_PROHIBITED,
        &mut own[..],
    );
    let ready = check_leaving(arrived, out.len(), true);
    let sent = bar_gate(
        ready,
        near.on,
        beyond.on,
        beyond.first,
        beyond.last,
        sends,
        area,
    );
    let crossed = cross(
        sent,
        near.domain,
        beyond.domain,
        table,
        rows,
        levels,
        &own[..],
        &mut far[..],
    );
    let held = hold_gate(crossed, beyond, least, most, only, &far[..]);
    let kept = kept_by(held, area);
    let spellings = beyond.spellings;
    let verdict = fit(held, beyond.unlabelled, spellings, kept, &far[..]);
    let count = write_area(
        verdict,
        beyond.unlabelled,
        beyond.domain,
        spellings,
        kept,
        area,
        &far[..],
        &mut out[..],
    );
    conclude(verdict, beyond.domain, facts, count, &far[..])
}
