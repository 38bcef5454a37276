// Option 130, the Basic Security Option (document 02, Wish 3; RFC 1108, section 2): its four levels in a fixed list with their order, one option read and one written, and
// what a port permits of it each way.
#![tactic(auto)]

ghost use Rattle.std.specs.Prelude.{◌≡◌, length, get_or, take, drop, ◌≤◌, ◌<◌, min, eqb, MatchOption};
ghost use Rattle.std.specs.List.{find};
ghost use Rattle.basic.specs.Levels.{levels, rank_of, at_most};
ghost use Rattle.basic.specs.Option.{flag_field};
ghost use Rattle.basic.specs.Alone.{reading_row, number_of, writing_row, basic_reading, basic_writing, basic_out};
ghost use Rattle.basic.specs.Stages.{framed_at, ended_at};
ghost use Rattle.basic.specs.Settings.{unused, no_way, basic_off, is_off, way_sound, way_zero, basic_sound, among, passes_way};

// A level's octet, and its rank: its place in the order of levels.
#[derive(Clone, Copy)]
pub struct Level {
    pub octet: u8,
    pub rank: u8,
}

// The four levels: Unclassified, Confidential, Secret and Top Secret (RFC 1108, table 1).
const LEVELS: [Level; 4] = [
    Level {
        octet: 0b10101011,
        rank: 0,
    },
    Level {
        octet: 0b10010110,
        rank: 1,
    },
    Level {
        octet: 0b01011010,
        rank: 2,
    },
    Level {
        octet: 0b00111101,
        rank: 3,
    },
];

// The level that has the octet.
fn level_of(octet: u8) -> Option<Level>
    ensures { result ≡ find (λ l. eqb l.octet octet) levels }
{
    LEVELS.iter().copied().find(|level| level.octet == octet)
}

// The rank of an octet: that of its level, or none where it is none of the four.
#[tactic(auto, unfolding(crate::specs::Levels::rank_of))]
pub fn rank_of(octet: u8) -> Option<u8>
    ensures { MatchOption result (rank_of octet ≡ 4) (λ r. (rank_of octet ≡ r) × (r < 4)) }
{
    match level_of(octet) {
        Some(level) => Some(level.rank),
        None => None,
    }
}

// Whether both are of the four levels, and the first has no higher rank.
#[tactic(auto, using(crate::proofs::Levels::at_most_is))]
pub fn at_most(low: u8, high: u8) -> bool
    ensures { result ≡ at_most low high }
{
    match (rank_of(low), rank_of(high)) {
        (Some(a), Some(b)) => a <= b,
        _ => false,
    }
}

// The option's type, and the places of its fields, counted from its first octet.
pub const BASIC_TYPE: u8 = 130;

const LENGTH_AT: usize = 1;

const LEVEL_AT: usize = 2;

const FLAGS_AT: usize = 3;

// The most octets that the option has: two of flags. Writing asks for so many octets of output.
pub const BASIC_OCTETS: usize = 5;

// The option's length without flags, and with one flag octet.
const BARE_OCTETS: usize = 3;

const ONE_FLAG_OCTETS: usize = 4;

// How many flag fields one octet has: seven flags, above the low bit.
const OCTET_FLAGS: u16 = 128;

// The flag field with all 14 flags.
const ALL_FLAGS: u16 = 16383;

// What an option means: the level's octet and the flag field.
#[derive(Clone, Copy)]
pub struct BasicReading {
    pub level: u8,
    pub flags: u16,
}

// The refusal of an option that is not valid, and of a level or flags that no option means.
pub const BAD_BASIC: u8 = 19;

// Why no option was written.
#[derive(Clone, Copy)]
pub enum BasicError {
    // 1: an output under 5 octets
    Short,
    // 19: a level that is none of the four, or flags past the fourteenth
    Bad,
}

// The number of the refusal.
impl From<BasicError> for u8 {
    ghost from_gives = { λ e n. n ≡ number_of e };

    fn from(error: BasicError) -> u8 {
        match error {
            BasicError::Short => 1,
            BasicError::Bad => BAD_BASIC,
        }
    }
}

// Reads one option alone: its level and flags, or none where it is not valid or does not fill its buffer.
#[tactic(auto, using(crate::proofs::Form::reading_at, crate::proofs::Levels::rank_level, crate::proofs::Levels::rank_no_level))]
pub fn read_basic(octets: &[u8]) -> Option<BasicReading>
    ensures { result ≡ basic_reading octets.now }
{
    let n = octets.len();
    let level = octet_at(octets, LEVEL_AT);
    let first = octet_at(octets, FLAGS_AT);
    let second = octet_at(octets, FLAGS_AT + 1);
    if !framed(n, octet_at(octets, 0), octet_at(octets, LENGTH_AT)) {
        return None;
    }
    if rank_of(level).is_none() {
        return None;
    }
    if !ended(n, first, second) {
        return None;
    }
    Some(BasicReading {
        level,
        flags: flag_field(first, second),
    })
}

// What reading answers as a row: number 0, the level's octet and the flag field; else 19 and zeros.
pub fn reading_row(read: Option<BasicReading>) -> (u8, u8, u16)
    ensures { (result.0 ≡ (reading_row read).number) × (result.1 ≡ (reading_row read).level) × (result.2 ≡ (reading_row read).flags) }
{
    match read {
        Some(reading) => (0, reading.level, reading.flags),
        None => (BAD_BASIC, 0, 0),
    }
}

// Octet i, or 0 past the end.
fn octet_at(octets: &[u8], i: usize) -> u8
    ensures { result ≡ get_or octets.now i 0 }
{
    if i < octets.len() { octets[i] } else { 0 }
}

// Whether n octets of this type and length octet are an option 130 of at most two flag octets that fills its buffer.
fn framed(n: usize, kind: u8, size: u8) -> bool
    ensures { result ≡ framed_at n kind size }
{
    (FLAGS_AT <= n) & (n <= BASIC_OCTETS) & (kind == BASIC_TYPE) & (usize::from(size) == n)
}

// Whether the low bits of the flag octets that an option of n octets has say which one is the last.
fn ended(n: usize, first: u8, second: u8) -> bool
    ensures { result ≡ ended_at n first second }
{
    if n == BARE_OCTETS {
        return true;
    }
    if n == ONE_FLAG_OCTETS {
        return first % 2 == 0;
    }
    (first % 2 == 1) & (second % 2 == 0)
}

// The seven flags of the first octet, then the seven of the second.
fn flag_field(first: u8, second: u8) -> u16
    ensures { result ≡ flag_field first second }
{
    u16::from(first / 2) * OCTET_FLAGS + u16::from(second / 2)
}

// Writes the shortest option of a level and a flag field, and tells how many octets it has: only these change, and none where it is refused.
#[tactic(auto, using(crate::proofs::Levels::rank_level, crate::proofs::Levels::rank_no_level), unfolding(crate::specs::Alone::basic_writing, crate::specs::Alone::basic_out, crate::specs::Alone::flag_octets_for))]
pub fn write_basic(level: u8, flags: u16, out: &mut [u8]) -> Result<usize, BasicError>
    ensures { (result ≡ basic_writing level flags (length out.old)) × (out.new ≡ basic_out level flags out.old) }
{
    if out.len() < BASIC_OCTETS {
        return Err(BasicError::Short);
    }
    if rank_of(level).is_none() {
        return Err(BasicError::Bad);
    }
    if ALL_FLAGS < flags {
        return Err(BasicError::Bad);
    }
    out[0] = BASIC_TYPE;
    out[LEVEL_AT] = level;
    if flags == 0 {
        out[LENGTH_AT] = 3;
        return Ok(3);
    }
    if flags % 128 == 0 {
        out[LENGTH_AT] = 4;
        out[FLAGS_AT] = (flags / 128 * 2) as u8;
        return Ok(4);
    }
    out[LENGTH_AT] = 5;
    out[FLAGS_AT] = (flags / 128 * 2 + 1) as u8;
    out[FLAGS_AT + 1] = (flags % 128 * 2) as u8;
    Ok(5)
}

// What writing answers as a row: number 0 and the option's length; or the number of a refusal and 0.
pub fn writing_row(written: Result<usize, BasicError>) -> (u8, usize)
    ensures { (result.0 ≡ (writing_row written).number) × (result.1 ≡ (writing_row written).count) }
{
    match written {
        Ok(count) => (0, count),
        Err(error) => (u8::from(error), 0),
    }
}

// The most flag fields that a port permits each way.
pub const MAX_FIELDS: usize = 256;

// What a port permits one way: levels from lowest to highest, and the flag fields in the first `count` places.
#[derive(Clone, Copy)]
pub struct Way {
    pub lowest: u8,
    pub highest: u8,
    pub count: usize,
    pub flags: [u16; MAX_FIELDS],
}

// What a port permits of the option: nothing of it is read where it is switched off.
#[derive(Clone, Copy)]
pub struct Basic {
    pub on: bool,
    pub receiving: Way,
    pub sending: Way,
}

impl Basic {
    // Switched off: every field is 0.
    pub fn off() -> Basic
        ensures { result ≡ basic_off }
    {
        Basic {
            on: false,
            receiving: no_way(),
            sending: no_way(),
        }
    }

    // Whether it is switched off and every field is 0.
    #[tactic(auto, unfolding(crate::specs::Settings::is_off, crate::specs::Settings::basic_sound))]
    pub fn is_off(self) -> bool
        ensures { result ≡ is_off self }
    {
        if self.on {
            return false;
        }
        // not by `basic_sound`: called once, it is put into `port_sound`, and no port is copied for it
        let receiving = self.receiving;
        let sending = self.sending;
        let first = way_zero(receiving);
        let second = way_zero(sending);
        first & second
    }
}

fn no_way() -> Way
    ensures { result ≡ no_way }
{
    Way {
        lowest: 0,
        highest: 0,
        count: 0,
        flags: [0u16; MAX_FIELDS],
    }
}

// Whether the settings are sound: of both ways where they are switched on, all 0 where they are off.
#[tactic(auto, unfolding(crate::specs::Settings::basic_sound))]
pub fn basic_sound(basic: Basic) -> bool
    ensures { result ≡ basic_sound basic }
{
    let receiving = basic.receiving;
    let sending = basic.sending;
    if basic.on {
        let first = way_sound(receiving);
        let second = way_sound(sending);
        return first & second;
    }
    let first = way_zero(receiving);
    let second = way_zero(sending);
    first & second
}

#[tactic(auto, unfolding(crate::specs::Settings::way_sound))]
fn way_sound(way: Way) -> bool
    ensures { result ≡ way_sound way }
{
    if !at_most(way.lowest, way.highest) {
        return false;
    }
    if MAX_FIELDS < way.count {
        return false;
    }
    all_zero(&way.flags[way.count..])
}

#[tactic(auto, unfolding(crate::specs::Settings::way_zero))]
fn way_zero(way: Way) -> bool
    ensures { result ≡ way_zero way }
{
    if way.lowest != 0 {
        return false;
    }
    if way.highest != 0 {
        return false;
    }
    if way.count != 0 {
        return false;
    }
    all_zero(&way.flags)
}

// Whether every field is 0, in one pass that does not end early.
#[tactic(auto, using(crate::proofs::Settings::unused_more, crate::proofs::Settings::any_zero))]
fn all_zero(fields: &[u16]) -> bool
    ensures { result ≡ unused fields.now }
{
    let mut any: u16 = 0;
    for field in fields {
        any |= *field;
    }
    any == 0
}

// Whether a level and a flag field pass: the level lies in the range by rank, and the flag field is one that is permitted.
#[tactic(auto, unfolding(crate::specs::Settings::passes_way))]
pub fn passes_way(way: Way, level: u8, flags: u16) -> bool
    ensures { result ≡ passes_way way level flags }
{
    if !at_most(way.lowest, level) {
        return false;
    }
    if !at_most(level, way.highest) {
        return false;
    }
    permits(way, flags)
}

// Whether the flag field is one of the first `count`, in one pass that does not end early: one that has only some of the flags is another.
#[tactic(auto, using(crate::proofs::Settings::among_more))]
fn permits(way: Way, flags: u16) -> bool
    ensures { result ≡ among (take way.count way.flags) flags }
{
    let n = way.count.min(MAX_FIELDS);
    let mut found = false;
    for field in &way.flags[..n] {
        found |= *field == flags;
    }
    found
}
