// The two-octet numbers of tags 2 and 5 read into keys, low · 65536 + high, in one pass each (document 01, "Option and tags"; row 12 of the table).
#![tactic(auto)]

ghost use Rattle.std.specs.Prelude.{◌≡◌, ◌+◌, ◌-◌, ◌*◌, ◌≤◌, ◌<◌, true, cond, ◌||◌, leb, eqb, length, get_or};
ghost use Rattle.label.specs.Runs.{run};
ghost use Rattle.option.specs.Index.{number_at, bottom_at};
ghost use Rattle.option_read_numbers.specs.Numbers.{whole, first_bad_number, number_runs, first_bad_pair, pair_runs, fits, Passes, ReadsNumbers, ReadsPairs};
ghost use Rattle.option_read_numbers.specs.Stages.{after_piece, count_after, keys_after_number, limit_at};

use label::Label;
use label_keys::key_of;
use label_ranges::{bad_pair, touches};

// The most octets of a tag's numbers.
const NUMBER_OCTETS: usize = 30;

// The one number of two octets that is no category.
const NO_CATEGORY: u16 = Label::MAX_CATEGORY + 1;

// The first bad number of a tag 2, or pair of a tag 5: how many keys are written, of tag 2 those of the numbers before it, of tag 5 those of all pairs, and
// the octet at which it begins.
#[derive(Clone, Copy)]
pub struct BadNumber {
    pub count: usize,
    pub at: usize,
}

// Where runs under construction stand: how many there are, the last one's low, and the category after its high.
#[derive(Clone, Copy)]
pub struct Last {
    pub count: usize,
    pub low: u16,
    pub next: u32,
}

// Tag 2: reads the numbers before the first bad one into keys, lowest first; what stands after them stays. Answers how many keys there are, of a list with a bad
// number also the octet at which it begins. An odd last octet is left out. Over 30 octets, or a list of under 15 keys, are not read: every key stays, there are
// none, and the first octet is bad.
pub fn read_numbers(octets: &[u8], keys: &mut [u32]) -> Result<usize, BadNumber>
    ensures { ReadsNumbers octets.now keys.old keys.new result }
{
    if !fit(octets.len(), keys.len()) {
        return Err(BadNumber { count: 0, at: 0 });
    }
    number_keys(octets, keys)
}

// Tag 5: the same with all pairs, of which the first bad one is told.
pub fn read_pairs(octets: &[u8], keys: &mut [u32]) -> Result<usize, BadNumber>
    ensures { ReadsPairs octets.now keys.old keys.new result }
{
    if !fit(octets.len(), keys.len()) {
        return Err(BadNumber { count: 0, at: 0 });
    }
    pair_keys(octets, keys)
}

// Whether a tag can have n octets, and their keys have room. `option_read` has tested both, and there the compiler leaves these tests out.
fn fit(n: usize, room: usize) -> bool
    ensures { result ≡ fits n room }
{
    if NUMBER_OCTETS < n {
        return false;
    }
    NUMBER_OCTETS / 2 <= room
}

// The categories low to high are added above all others: where they touch the last run, they become part of it. The caller says whether they
// are the first, by its own counter, so that only its first turn asks.
fn add_piece(last: Last, first: bool, low: u16, high: u16) -> Last
    requires { (last.count ≤ 120) × (first ≡ eqb last.count 0) }
    ensures { result ≡ after_piece last low high }
{
    let next = u32::from(high) + 1;
    if first {
        return Last {
            count: 1,
            low: low,
            next: next,
        };
    }
    if last.next == u32::from(low) {
        return Last {
            count: last.count,
            low: last.low,
            next: next,
        };
    }
    Last {
        count: last.count + 1,
        low: low,
        next: next,
    }
}

// Two-octet number k.
fn number_at(octets: &[u8], k: usize) -> u16
    requires { 2 * k + 1 < length octets.now }
    ensures { (result ≡ number_at (whole octets.now) k) × (result < 65536) }
{
    u16::from_be_bytes([octets[2 * k], octets[2 * k + 1]])
}

// Tag 2: 65535, or below the category after the number before it.
fn bad_after(x: u16, next: u32) -> bool
    ensures { result ≡ (eqb x 65535 || leb (x + 1) next) }
{
    if x == NO_CATEGORY {
        return true;
    }
    let after = u32::from(x) + 1;
    after <= next
}

// Tag 2: a number above all others is added. One that touches the last run becomes its high, which makes its key greater by 1. Two stores, so
// that this is a branch, which few numbers take: no store waits for the count.
fn add_number(keys: &mut [u32], count: usize, first: bool, next: u32, x: u16) -> usize
    requires { (count < length keys.old) × (first ≡ eqb count 0) × (0 < count → next ≡ x → get_or keys.old (count - 1) 0 < 4294967295) }
    ensures { (result ≡ count_after count next x) × (keys.new ≡ keys_after_number keys.old count next x) }
{
    if touches(first, next, x) {
        let at = count - 1;
        keys[at] = keys[at] + 1;
        return count;
    }
    keys[count] = key_of(x, x);
    count + 1
}

// Tag 2: the numbers are checked and added in one pass, which ends at the first bad one.
fn number_keys(octets: &[u8], keys: &mut [u32]) -> Result<usize, BadNumber>
    requires { (length octets.now ≤ 30) × (15 ≤ length keys.old) }
    ensures { Passes true (number_runs (whole octets.now)) (2 * first_bad_number (whole octets.now)) (length (whole octets.now)) keys.old keys.new result }
{
    let n = octets.len() / 2;
    let mut count: usize = 0;
    let mut next: u32 = 0;
    for k in 0..n {
        let x = number_at(octets, k);
        if bad_after(x, next) {
            return Err(BadNumber { count, at: 2 * k });
        }
        count = add_number(keys, count, k == 0, next, x);
        next = u32::from(x) + 1;
    }
    Ok(count)
}

// The bottom of pair j; the last one left out is 0.
fn bottom_at(octets: &[u8], j: usize) -> u16
    requires { j ≤ 40 }
    ensures { result ≡ bottom_at (whole octets.now) j }
{
    if 4 * j + 3 < octets.len() {
        return number_at(octets, 2 * j + 1);
    }
    0
}

// The bottom of the last of n pairs.
fn last_bottom(octets: &[u8], n: usize) -> u16
    requires { n ≤ 40 }
    ensures { 0 < n → result ≡ bottom_at (whole octets.now) (n - 1) }
{
    if n == 0 {
        return 0;
    }
    bottom_at(octets, n - 1)
}

// What the top of pair j is to lie below: the bottom of the pair before it.
fn limit_at(octets: &[u8], j: usize) -> u16
    requires { (j ≤ 40) × (4 * j ≤ length octets.now) }
    ensures { (result ≡ limit_at (whole octets.now) j) × (result < 65536) }
{
    if j == 0 {
        return NO_CATEGORY;
    }
    number_at(octets, 2 * j - 1)
}

fn either(first: bool, a: usize, b: usize) -> usize
    ensures { result ≡ cond first a b }
{
    if first {
        return a;
    }
    b
}

// Tag 5: the pairs are checked and added in one pass from the last to the first: the bad one that is met last is the first.
fn pair_keys(octets: &[u8], keys: &mut [u32]) -> Result<usize, BadNumber>
    requires { (length octets.now ≤ 30) × (15 ≤ length keys.old) }
    ensures { Passes true (pair_runs (whole octets.now)) (4 * first_bad_pair (whole octets.now)) (length (whole octets.now)) keys.old keys.new result }
{
    let n = (octets.len() + 2) / 4;
    let mut last = Last {
        count: 0,
        low: 0,
        next: 0,
    };
    let mut bad = n;
    let mut bottom = last_bottom(octets, n);
    for j in (0..n).rev() {
        let first = j + 1 == n;
        let top = number_at(octets, 2 * j);
        let limit = limit_at(octets, j);
        bad = either(bad_pair(top, bottom, limit), j, bad);
        last = add_piece(last, first, bottom, top);
        let at = last.count - 1;
        keys[at] = key_of(last.low, top);
        bottom = limit;
    }
    let count = last.count;
    if bad < n {
        return Err(BadNumber { count, at: 4 * bad });
    }
    Ok(count)
}
