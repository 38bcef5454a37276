// The leaving options area (document 01, "The leaving area"): the kept options are written behind the option 134, and zeros pad the area.
#![tactic(auto)]

ghost use Rattle.std.specs.Prelude.{◌≡◌, ◌+◌, ◌≤◌, ◌<◌, length, take};
ghost use Rattle.lists.specs.Lists.{paint};
ghost use Rattle.area.specs.Area.{span_of};
ghost use Rattle.area_leaving.specs.Kept.{kept_len, kept_of, rest_count, rest_of};
ghost use Rattle.area_leaving.specs.Stages.{next_of};

use area::Kind;
use lists::copy_list;

// How far the walk goes on: over a whole option, or not at all.
fn step(kind: Kind, size: Option<usize>) -> Option<usize>
    ensures { result ≡ span_of kind size }
{
    match kind {
        Kind::End => None,
        Kind::NoOperation => Some(1),
        Kind::Basic | Kind::Extended | Kind::Cipso | Kind::Other => size,
    }
}

// How many octets of an option of n octets are kept.
fn kept_len(kind: Kind, n: usize) -> usize
    ensures { result ≡ kept_len kind n }
{
    match kind {
        Kind::End => 0,
        Kind::NoOperation => 0,
        Kind::Basic => n,
        Kind::Extended => n,
        Kind::Cipso => 0,
        Kind::Other => n,
    }
}

// What the walk goes over at an option: n octets, of which the first `kept` are kept.
#[derive(Clone, Copy)]
struct Over {
    n: usize,
    kept: usize,
}

// What the walk goes over at the option that rest starts with, if it does not end there.
fn next_option(rest: &[u8]) -> Option<Over>
    requires { 0 < length rest.now }
    ensures { result ≡ next_of rest.now }
{
    let k = area::read_kind(rest[0]);
    match step(k, area::read_size(rest)) {
        None => None,
        Some(n) => Some(Over {
            n,
            kept: kept_len(k, n),
        }),
    }
}

// How many octets the kept options of an area have.
pub fn count_kept(area: &[u8]) -> usize
    ensures value { result ≡ length (kept_of area.now) }
    ensures upper_bound { result ≤ length area.now }
{
    let mut at = 0;
    let mut w = 0;
    while at < area.len() {
        if area[at] == 1 {
            // no operation: an octet that is not kept
            at += 1;
        } else if area[at] == 0 {
            // the end, as most areas have it
            return w;
        } else {
            match next_option(&area[at..]) {
                None => return w,
                Some(over) => {
                    w = w + over.kept;
                    at = at + over.n;
                }
            }
        }
    }
    w
}

// Writes the first `most` octets of the kept options of an area into out, from an octet on, and answers the octet behind them.
fn copy_kept(area: &[u8], out: &mut [u8], from: usize, most: usize) -> usize
    requires { from + most ≤ length out.old }
    ensures value { result ≡ from + length (take most (kept_of area.now)) }
    ensures out_after { out.new ≡ paint from (take most (kept_of area.now)) out.old }
{
    let mut at = 0;
    let mut w = from;
    let mut left = most;
    while at < area.len() {
        if left == 0 {
            return w;
        }
        let rest = &area[at..];
        match next_option(rest) {
            None => return w,
            Some(over) => {
                let m = over.kept.min(left);
                copy_list(&rest[..m], &mut out[w..]);
                w = w + m;
                left = left - m;
                at = at + over.n;
            }
        }
    }
    w
}

// Writes the first `kept` octets of the kept options of an area behind the first `from` octets of the output, and zeros up to octet 39; answers the
// count of the area. Where the output has under 40 octets, or `from` and `kept` together exceed 40, nothing is written and the count is 0.
pub fn write_rest(area: &[u8], from: usize, kept: usize, out: &mut [u8]) -> usize
    ensures value { result ≡ rest_count from kept (kept_of area.now) (length out.old) }
    ensures out_after { out.new ≡ rest_of from kept (kept_of area.now) out.old }
{
    if out.len() < 40 {
        return 0;
    }
    if 40 < from {
        return 0;
    }
    if 40 - from < kept {
        return 0;
    }
    let w = copy_kept(area, &mut out[..], from, kept);
    out[w..40].fill(0);
    (w + 3) / 4 * 4
}
