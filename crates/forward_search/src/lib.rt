// Into the leaving port's domain under a table that was checked once (document 01, "The order of checks": 16): the level's partner is read from a list, the categories' numbers are found by
// search. Of a sound table this is what `forward_cross` answers.
#![tactic(auto)]

ghost use Rattle.std.specs.Prelude.{◌≡◌, length, take};
ghost use Rattle.label_keys.specs.Keys.{key_runs};
ghost use Rattle.table.specs.Table.{rows_from};
ghost use Rattle.renumber_search.specs.Search.{searched_of};
ghost use Rattle.forward_search.specs.Acts.{carried_verdict, crossed_acts, acts_keys};

use decision::{NETWORK_PROHIBITED, Verdict, barred, go_on};
use lists::copy_list;
use renumber_partners::partner_at;
use renumber_search::carry_rows;

// With equal domains (`same`) the verdict stays, and the keys are copied. Else, where no check applies: 16 where no table is for the two domains (`there`), or the level or a category has no
// number; else the keys of the far domain.
pub fn cross_checked(
    arrived: Verdict,
    same: bool,
    there: bool,
    partners: &[u16],
    rows: &[u16],
    own: &[u32],
    far: &mut [u32],
) -> Verdict
    ensures value { result ≡ crossed_acts arrived same there partners.now (rows_from rows.now) own.now (length far.old) }
    ensures far_after { far.new ≡ acts_keys arrived same there partners.now (rows_from rows.now) own.now far.old }
{
    if same {
        copy_list(own, far);
        return arrived;
    }
    let passed = arrived?;
    let to = partner_at(partners, passed.level);
    let known = to <= 255;
    if !(there & known) {
        return barred(16, NETWORK_PROHIBITED);
    }
    verdict_of(carry_rows(own, passed.count, rows, far), to)
}

// What the search says, of a level with a partner.
fn verdict_of(runs: Option<usize>, to: u16) -> Verdict
    ensures { result ≡ carried_verdict runs to }
{
    match runs {
        None => barred(16, NETWORK_PROHIBITED),
        Some(count) => go_on((to % 256) as u8, count),
    }
}
