// The options area of an IPv4 header (RFC 791; document 01, "The order of checks"; document 02, Wishes 3 and 9): an option's type and length, the size of the area, and the
// walk over its options, which gives 3, 4 and 5 and the places of the options 134 and 130.
#![tactic(auto)]

ghost use Rattle.std.specs.Prelude.{◌≡◌, ℕ, Some, None};
ghost use Rattle.area.specs.Kinds.{kind_of, size_of};
ghost use Rattle.area.specs.Turn.{judge, judge_basic};
ghost use Rattle.area.specs.Area.{bad_size, met_of, judged, walk_of, open_walk, option_at};

// The most octets of an options area.
pub const AREA_OCTETS: usize = 40;

// The types of options that the walk tells apart: 0, 1, 130 (basic security), 133 (extended security), 134, and all others.
#[derive(Clone, Copy)]
pub enum Kind {
    End,
    NoOperation,
    Basic,
    Extended,
    Cipso,
    Other,
}

// The type of an option, by its first octet.
pub fn read_kind(octet: u8) -> Kind
    ensures { result ≡ kind_of octet }
{
    match octet {
        0 => Kind::End,
        1 => Kind::NoOperation,
        130 => Kind::Basic,
        133 => Kind::Extended,
        134 => Kind::Cipso,
        2..=129 | 131..=132 | 135..=255 => Kind::Other,
    }
}

// The length of the option that the octets start with, if it is whole: none where it is missing, under 2 or past the area.
pub fn read_size(rest: &[u8]) -> Option<usize>
    ensures { result ≡ size_of rest.now }
{
    if rest.len() < 2 {
        return None;
    }
    let n = rest[1] as usize;
    if n < 2 {
        return None;
    }
    if n <= rest.len() { Some(n) } else { None }
}

// The octets of the option at an octet: as many as its length octet says, or as there are.
pub fn option_at(area: &[u8], at: usize) -> &[u8]
    ensures { result.now ≡ option_at at area.now }
{
    if area.len() < at {
        return &[];
    }
    let rest = &area[at..];
    if rest.len() < 2 {
        return &[];
    }
    let count = rest[1] as usize;
    if rest.len() < count {
        return rest;
    }
    &rest[..count]
}

// The places of the options 134 and 130 that a walk meets: the octets of their types, where there are such options.
#[derive(Clone, Copy)]
pub struct Places {
    pub label: Option<usize>,
    pub basic: Option<usize>,
}

// A walk's refusal: 3, 4 or 5, with the octet of the option's type.
#[derive(Clone, Copy)]
pub struct Fault {
    pub number: u8,
    pub at: usize,
}

// A whole option that stands at an octet, by 4 and 5. `on` says whether option 130 is read, `lax` whether option 133 is passed over; `met` has the places of
// the options 134 and 130 that were met before.
fn judge(on: bool, lax: bool, kind: Kind, at: usize, met: Places) -> Result<Places, Fault>
    ensures { (n : ℕ) → result ≡ judge on lax kind (Some n) at met.label met.basic }
{
    match kind {
        Kind::Basic => judge_basic(on, at, met),
        Kind::Extended => {
            if !lax {
                return Err(Fault { number: 4, at });
            }
            Ok(met)
        }
        Kind::Cipso => match met.label {
            None => Ok(Places {
                label: Some(at),
                basic: met.basic,
            }),
            Some(_) => Err(Fault { number: 5, at }),
        },
        Kind::End | Kind::NoOperation | Kind::Other => Ok(met),
    }
}

// A whole option 130.
fn judge_basic(on: bool, at: usize, met: Places) -> Result<Places, Fault>
    ensures { result ≡ judge_basic on at met.label met.basic }
{
    if !on {
        return Err(Fault { number: 4, at });
    }
    match met.basic {
        None => Ok(Places {
            label: met.label,
            basic: Some(at),
        }),
        Some(_) => Err(Fault { number: 5, at }),
    }
}

// Check 1 of an area of n octets: over 40, or not a multiple of 4.
pub fn bad_area(n: usize) -> bool
    ensures { result ≡ bad_size n }
{
    if AREA_OCTETS < n {
        return true;
    }
    n % 4 != 0
}

// The walk over an area: the earliest option that is refused decides, and type 0 ends it. `on` says whether the port at which it arrives reads
// option 130.
pub fn walk_area(area: &[u8], on: bool) -> Result<Places, Fault>
    ensures { result ≡ walk_of on area.now }
{
    let lax = false;
    walk_options(area, on, lax)
}

// The walk over an area, check 4 left out: options 130 and 133 are passed over, and a second 130 is 5.
pub fn walk_open(area: &[u8]) -> Result<Places, Fault>
    ensures { result ≡ open_walk area.now }
{
    let on = true;
    let lax = true;
    walk_options(area, on, lax)
}

// The walk, told which of the options 130 and 133 it does not refuse.
fn walk_options(area: &[u8], on: bool, lax: bool) -> Result<Places, Fault>
    ensures { result ≡ judged on lax (met_of area.now) None None }
{
    let mut at = 0;
    let mut met = Places {
        label: None,
        basic: None,
    };
    while at < area.len() {
        match area[at] {
            0 => return Ok(met),
            1 => at += 1, // no operation: an octet with no length
            octet => {
                let n = read_size(&area[at..]).ok_or(Fault { number: 3, at })?; // 3 before 4
                met = judge(on, lax, read_kind(octet), at, met)?;
                at = at + n;
            }
        }
    }
    Ok(met)
}
