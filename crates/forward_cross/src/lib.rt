// Into the leaving port's domain (document 01, "The order of checks": 2 of the table, and 16).
#![tactic(auto)]

ghost use Rattle.std.specs.Prelude.{◌≡◌, length};
ghost use Rattle.table.specs.Table.{lent};
ghost use Rattle.forward_cross.specs.Crossed.{tabled_by, numbered_by, crossed_by, crossed_keys};

use decision::{NETWORK_PROHIBITED, Refusal, Verdict, barred, go_on, silent};
use lists::copy_list;
use renumber_keys::{Carried, CarryError, carry};
use table::{Table, table_sound};
use table_levels::Levels;

// Check 2 of the table, which is read when the domains differ, and 16: the keys of the far domain. With equal domains the keys stay.
pub fn cross(
    arrived: Verdict,
    domain: u32,
    leaving: u32,
    table: Table,
    rows: &[u16],
    levels: Levels,
    own: &[u32],
    far: &mut [u32],
) -> Verdict
    ensures value { result ≡ crossed_by arrived domain leaving (lent table rows.now) levels own.now (length far.old) }
    ensures far_after { far.new ≡ crossed_keys arrived domain leaving (lent table rows.now) levels own.now far.old }
{
    let from = table.from;
    let to = table.to;
    if domain == leaving {
        copy_list(own, far);
        return arrived;
    }
    match arrived {
        Err(refusal) => check_table(refusal, table, rows, levels),
        Ok(passed) => {
            // carrying checks the table itself
            let carried = carry(own, passed.count, passed.level, table, rows, levels, far);
            number_over(carried, from == domain, to == leaving)
        }
    }
}

// Check 2 of the table, where another check applies: before 3 to 21.
fn check_table(refusal: Refusal, table: Table, rows: &[u16], levels: Levels) -> Verdict
    ensures { result ≡ tabled_by refusal (lent table rows.now) levels }
{
    if refusal.number <= 2 {
        return Err(refusal);
    }
    if !table_sound(table, rows, levels) {
        return silent(2);
    }
    Err(refusal)
}

// What carrying the label over says: 2 of the table, then 16, also for a table of other domains.
#[tactic(auto, unfolding(crate::specs::Crossed::numbered_by))]
fn number_over(carried: Result<Carried, CarryError>, from: bool, to: bool) -> Verdict
    ensures { result ≡ numbered_by carried from to }
{
    match carried {
        Err(CarryError::Unsound) => silent(2),
        Err(CarryError::NoNumber) => barred(16, NETWORK_PROHIBITED),
        Ok(carried) => {
            if !(from & to) {
                return barred(16, NETWORK_PROHIBITED);
            }
            go_on(carried.level, carried.count)
        }
    }
}
