// Level pairs of a renumbering table: what makes them sound, and the partner of a level (document 01, "Records").
#![tactic(auto)]

ghost use Rattle.std.specs.Prelude.{◌≡◌, true, ◌+◌, ◌*◌, ◌≤◌, take};
ghost use Rattle.table_levels.specs.Levels.{pairs_sound, partner_of, sound_partner};

// The most level pairs of a table.
pub const MAX_PAIRS: usize = 256;

// The level pairs of a table, passed beside it.
pub type Levels = [[u8; 2]; MAX_PAIRS];

// A level and the level that it goes to.
#[derive(Clone, Copy)]
pub struct LevelPair {
    pub levels: [u8; 2],
}

// The level that a level goes to among the first `pairs` pairs, where it has a partner.
pub fn partner_of(levels: Levels, pairs: usize, level: u8) -> Option<u8>
    ensures { result ≡ partner_of (take pairs levels) level }
{
    for pair in &levels[..pairs.min(MAX_PAIRS)] {
        if pair[0] == level {
            return Some(pair[1]);
        }
    }
    None
}

// Whether the first `count` pairs rise strictly on both sides and the others are zero; that each number is at most 255 is what its type says.
pub fn levels_sound(levels: Levels, count: usize) -> bool
    ensures { result ≡ pairs_sound levels count }
{
    look_levels(levels, count, 0).is_some()
}

// Of sound pairs the partner of a level, where it has one. Both questions at once, and both loops in one function: the pairs are copied for each that takes them.
pub fn look_levels(levels: Levels, count: usize, level: u8) -> Option<Option<u8>>
    ensures { result ≡ sound_partner levels count level }
{
    let n = count.min(MAX_PAIRS);
    let mut partner: Option<u8> = None;
    let mut from: u16 = 0;
    let mut to: u16 = 0;
    for pair in &levels[..n] {
        let a = u16::from(pair[0]);
        let b = u16::from(pair[1]);
        if a < from || b < to {
            return None;
        }
        if partner.is_none() && pair[0] == level {
            partner = Some(pair[1]);
        }
        from = a + 1;
        to = b + 1;
    }
    let mut rest: u16 = 0;
    for pair in &levels[n..] {
        rest = rest | pair_word(pair[0], pair[1]);
    }
    if rest != 0 {
        return None;
    }
    Some(partner)
}

// Both levels as they lie in memory.
fn pair_word(a: u8, b: u8) -> u16
    ensures { result ≡ a + b * 256 }
{
    u16::from(a) + u16::from(b) * 256
}
