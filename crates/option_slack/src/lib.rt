// Slack spellings (document 02, Wish 10): what a strict port stops with 23.
#![tactic(auto)]

ghost use Rattle.std.specs.Prelude.{◌≡◌, cond, ◌+◌, ◌-◌, ◌*◌, ◌≤◌, ◌<◌, leb, eqb, length};
ghost use Rattle.option.specs.Option.{numbers_in};
ghost use Rattle.option.specs.Index.{number_at};
ghost use Rattle.option_slack.specs.Slack.{touching, zero_written, slack_bitmap, slack_pairs, slack};
ghost use Rattle.option_slack.specs.Strict.{comes_after, stops_read};

use option_read::{Fault, KeysRead};

// The octets of a bitmap that may end with a zero octet.
const TEN_OCTETS: usize = 10;

// The refusal that comes after 23: octets after the tag.
const AFTER_TAG: u8 = 13;

// Whether an option is a slack spelling: its tag 1 has a trailing zero octet and not ten octets, or its tag 5 has touching pairs or writes out a last bottom
// of 0. The tag's own octets are looked at, as many of them as are there.
pub fn is_slack(octets: &[u8]) -> bool
    ensures { result ≡ slack octets.now }
{
    let n = octets.len();
    if n < option::CATEGORIES_AT {
        return false;
    }
    let size = widen(octets[option::TAG_LENGTH_AT]);
    let tag = octets[option::TAG_TYPE_AT];
    let end = tag_end(size, n);
    let categories = &octets[option::CATEGORIES_AT..end];
    if tag == option::BITMAP {
        return is_slack_bitmap(categories);
    }
    if tag == option::PAIRS {
        return are_slack_pairs(categories);
    }
    false
}

// Whether 23 decides at a port that may be strict, of an option that was read for its domain: a label and 13 come after 23. The octets are looked at
// on a strict port alone.
pub fn stops_slack(strict: bool, read: Result<KeysRead, Fault>, octets: &[u8]) -> bool
    ensures { result ≡ stops_read strict read octets.now }
{
    if !strict {
        return false;
    }
    comes_after(read) && is_slack(octets)
}

// Whether 23 is tested before what was answered.
fn comes_after(read: Result<KeysRead, Fault>) -> bool
    ensures { result ≡ comes_after read }
{
    match read {
        Ok(_) => true,
        Err(fault) => fault.number == AFTER_TAG,
    }
}

// Where the categories of a tag with this length octet end in an option of n octets.
fn tag_end(size: usize, n: usize) -> usize
    requires { (10 ≤ n) × (size < 256) }
    ensures { result ≡ 10 + cond (leb (size - 4) (n - 10)) (size - 4) (n - 10) }
{
    let end = size + option::TAG_TYPE_AT;
    if end < option::CATEGORIES_AT {
        return option::CATEGORIES_AT;
    }
    if end <= n {
        return end;
    }
    n
}

// A bitmap with a trailing zero octet, unless it has exactly ten octets.
fn is_slack_bitmap(bitmap: &[u8]) -> bool
    ensures { result ≡ slack_bitmap bitmap.now }
{
    let n = bitmap.len();
    if n == 0 {
        return false;
    }
    let last = n - 1;
    (bitmap[last] == 0) & (n != TEN_OCTETS)
}

// Touching pairs, or a last bottom of 0 written out; an odd last octet is left out.
fn are_slack_pairs(octets: &[u8]) -> bool
    ensures { result ≡ slack_pairs (numbers_in octets.now) }
{
    if some_touch(octets) {
        return true;
    }
    writes_zero(octets)
}

// Whether a next top is one below the bottom before it.
fn some_touch(octets: &[u8]) -> bool
    ensures { result ≡ touching (numbers_in octets.now) }
{
    let tops = (octets.len() / 2 + 1) / 2;
    for j in 1..tops {
        let top = number_at(octets, 2 * j);
        let bottom = number_at(octets, 2 * j - 1);
        if touch(top, bottom) {
            return true;
        }
    }
    false
}

// Whether the last bottom is there and is 0.
fn writes_zero(octets: &[u8]) -> bool
    ensures { result ≡ zero_written (numbers_in octets.now) }
{
    let n = octets.len() / 2;
    if n == 0 {
        return false;
    }
    if n % 2 != 0 {
        return false;
    }
    let last = number_at(octets, n - 1);
    last == 0
}

fn touch(top: u16, bottom: u16) -> bool
    ensures { result ≡ eqb (top + 1) bottom }
{
    u32::from(top) + 1 == u32::from(bottom)
}

// Two-octet number k.
fn number_at(octets: &[u8], k: usize) -> u16
    requires { 2 * k + 1 < length octets.now }
    ensures { result ≡ number_at octets.now k }
{
    u16::from_be_bytes([octets[2 * k], octets[2 * k + 1]])
}

fn widen(x: u8) -> usize
    ensures { (result ≡ x) × (result < 256) }
{
    usize::from(x)
}
