// The partners of a table's levels, a number for each level, made once for many datagrams (document 01, "Records").
#![tactic(auto)]

ghost use Rattle.std.specs.Prelude.{◌≡◌, ◌++◌, ◌≤◌, length, take, drop, get_or, replicate};
ghost use Rattle.renumber_partners.specs.Partners.{partners_in};

use table_levels::{Levels, MAX_PAIRS};

// How many levels there are, and the number that stands for no partner.
pub const LEVELS: usize = 256;

pub const NO_LEVEL: u16 = 256;

// Writes at the head of the lent list, for each level, the level that the first of the first `pairs` pairs with it gives, and 256 where there is none. A list of under 256 places stays as
// it was.
pub fn fill_partners(levels: Levels, pairs: usize, partners: &mut [u16])
    ensures { partners.new ≡ partners_in (take pairs levels) partners.old }
{
    if partners.len() < LEVELS {
        return;
    }
    partners[..LEVELS].fill(NO_LEVEL);
    // from the last pair to the first, for the first counts
    let n = pairs.min(MAX_PAIRS);
    for pair in levels[..n].iter().rev() {
        let level = usize::from(pair[0]);
        partners[level] = u16::from(pair[1]);
    }
}

// The partner of a level, 256 where it has none or the list is too short.
pub fn partner_at(partners: &[u16], level: u8) -> u16
    ensures { result ≡ get_or partners.now level 256 }
{
    let at = usize::from(level);
    if partners.len() <= at {
        return NO_LEVEL;
    }
    partners[at]
}
