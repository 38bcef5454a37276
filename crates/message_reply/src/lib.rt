// The options area of a reply (document 02, Wish 9): which octets of the offending header's area are copied.
#![tactic(auto)]

ghost use Rattle.std.specs.Prelude.{◌≡◌, true, ◌≤◌, ◌<◌, length, Some};
ghost use Rattle.area.specs.declared.Kind.TheVariants.{Cipso};
ghost use Rattle.area.specs.Area.{WholeAt};
ghost use Rattle.option.specs.Option.{domain_of, valid};
ghost use Rattle.option_read.specs.Reading.{framed};
ghost use Rattle.message_reply.specs.Reply.{reply_at, reply_of};

use area::{option_at, walk_open};
use option_read::read_keys;

// What is copied: `count` octets from a place of the area on, none where the header has no option 134.
#[derive(Clone, Copy)]
pub struct Copied {
    pub at: usize,
    pub count: usize,
}

// What the reply to a datagram copies of the options area of its header: its option 134, if it is valid; nothing is sent where it is not, or where the
// walk, check 4 left out, meets 3 or 5.
pub fn find_reply(area: &[u8]) -> Option<Copied>
    ensures { result ≡ reply_of area.now }
{
    match walk_open(area) {
        Err(_) => None,
        Ok(met) => match met.label {
            None => Some(Copied { at: 0, count: 0 }),
            Some(at) => copy_at(area, at),
        },
    }
}

// The option 134 at an octet, if it is valid.
fn copy_at(area: &[u8], at: usize) -> Option<Copied>
    requires { WholeAt Cipso area.now at }
    ensures { result ≡ reply_at (Some at) area.now }
{
    let octets = option_at(area, at);
    if is_valid(octets) {
        return Some(Copied {
            at,
            count: octets.len(),
        });
    }
    None // nothing is sent
}

// Whether an option that begins with 134 and fills its octets is valid, whatever its domain.
fn is_valid(octets: &[u8]) -> bool
    requires { framed octets.now ≡ true }
    ensures { result ≡ valid octets.now }
{
    if octets.len() < 10 {
        return false;
    }
    let mut keys = [0u32; 120];
    read_keys(octets, domain_in(octets), &mut keys).is_ok()
}

fn widen(x: u8) -> u32
    ensures { (result ≡ x) × (result < 256) }
{
    x as u32
}

// The domain of an option, big-endian.
fn domain_in(octets: &[u8]) -> u32
    requires { 10 ≤ length octets.now }
    ensures { result ≡ domain_of octets.now }
{
    let a = widen(octets[2]);
    let b = widen(octets[3]);
    let c = widen(octets[4]);
    let d = widen(octets[5]);
    ((a * 256 + b) * 256 + c) * 256 + d
}
