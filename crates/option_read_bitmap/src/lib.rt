// A tag 1 bitmap read into keys, by two engines (wish 12): bit by bit, and by a table of 256 entries.
#![tactic(auto)]

ghost use Rattle.std.specs.Prelude.{◌≡◌, ◌+◌, ◌*◌, ◌/◌, ◌%◌, ◌≤◌, ◌<◌, length, Err};
ghost use Rattle.std.proofs.lemmas.List.Edits.{sets};
ghost use Rattle.option_read_octet.specs.Entry.{count_in, parts_in};
ghost use Rattle.option_read_octet.specs.Theorems.{Rule};
ghost use Rattle.option.specs.Bitmap.{weight};
ghost use Rattle.option_read_bitmap.specs.Bitmap.{number_of, row_of, bitmap_found, bitmap_keys};
ghost use Rattle.option_read_bitmap.specs.Stages.{headed, LastKey, Stands, Turn, Filled};

use label::Label;
use option_read_octet::{count_in, part, table};

// The most octets of a bitmap.
const BITMAP_OCTETS: usize = (Label::BITMAP_CATEGORIES / 8) as usize;

// A bitmap of at most so many octets is read bit by bit: building the table takes longer (docs/DECISIONS.md has the figures).
const SHORT_OCTETS: usize = 1;

// Why a bitmap is not read: the list has under 120 numbers (1), or the bitmap over 30 octets (10).
#[derive(Clone, Copy)]
pub enum BitmapError {
    Short,
    Long,
}

// The number of the refusal.
impl From<BitmapError> for u8 {
    ghost from_gives = { λ e n. n ≡ number_of (Err e) };

    fn from(error: BitmapError) -> u8 {
        match error {
            BitmapError::Short => 1,
            BitmapError::Long => 10,
        }
    }
}

// Where an engine stands: how many keys are written, the last of them, and the last bit that was read. The key is kept beside the list, so
// that a run that goes on is not loaded again.
#[derive(Clone, Copy)]
pub struct Last {
    pub count: usize,
    pub key: u32,
    pub bit: u32,
}

fn widen(x: u8) -> u32
    ensures { (result ≡ x) × (result < 256) }
{
    u32::from(x)
}

// Bit k of an octet, counted from the top.
fn bit_of(x: u32, k: usize) -> u32
    requires { (x < 256) × (k < 8) }
    ensures { (result ≡ x / weight k % 2) × (result < 2) }
{
    (x >> (7 - k)) % 2
}

// Adds category c where its bit is 1: it goes on from the last run where that ends before it.
fn add_bit(octets: &[u8], c: usize, base: u32, keys: &mut [u32], last: Last) -> Last
    requires { (c < 8 * length octets.now) × (length octets.now ≤ 30) × Stands octets.now c keys.old last × (120 ≤ length keys.old) × (base ≡ c * 65537) }
    ensures { Turn octets.now (c + 1) keys.old last keys.new result }
{
    let bit = bit_of(widen(octets[c / 8]), c % 8);
    if bit == 0 {
        return Last {
            count: last.count,
            key: last.key,
            bit: 0,
        };
    }
    if last.bit == 1 {
        let key = last.key + 1;
        let at = last.count - 1;
        keys[at] = key;
        return Last {
            count: last.count,
            key: key,
            bit: 1,
        };
    }
    let at = last.count;
    keys[at] = base;
    Last {
        count: at + 1,
        key: base,
        bit: 1,
    }
}

// Writes the keys of all runs of at most 30 octets, bit by bit.
#[tactic(auto, using(crate::proofs::LastRun::stands_start, crate::proofs::LastRun::stands_end))]
fn fill_bits(octets: &[u8], keys: &mut [u32]) -> usize
    requires { (length octets.now ≤ 30) × (120 ≤ length keys.old) }
    ensures { Filled octets.now keys.old keys.new result }
{
    let mut last = Last {
        count: 0,
        key: 0,
        bit: 0,
    };
    // the key of a category alone
    let mut base: u32 = 0;
    for c in 0..8 * octets.len() {
        last = add_bit(octets, c, base, keys, last);
        base += 65537;
    }
    last.count
}

// The first engine, bit by bit: reads a bitmap's runs into a lent list of keys, low * 65536 + high each, lowest first, and answers how many there are; what
// stands after them stays. A list of under 120 numbers is refused before over 30 octets, and then every key stays.
#[tactic(auto, unfolding(crate::specs::Bitmap::bitmap_found, crate::specs::Bitmap::bitmap_keys))]
pub fn read_bits(octets: &[u8], keys: &mut [u32]) -> Result<usize, BitmapError>
    ensures { (result ≡ bitmap_found octets.now (length keys.old)) × (keys.new ≡ bitmap_keys octets.now keys.old) }
{
    if keys.len() < Label::MAX_RUNS {
        return Err(BitmapError::Short);
    }
    if BITMAP_OCTETS < octets.len() {
        return Err(BitmapError::Long);
    }
    Ok(fill_bits(octets, keys))
}

// Writes the keys of an entry's runs from a place on: the first above head, the others above base.
fn put_runs(keys: &mut [u32], at: usize, head: u32, base: u32, entry: u32, bit: u32) -> Last
    requires { (120 ≤ length keys.old) × (at ≤ 116) × (head ≤ 100000000) × (base ≤ 100000000) × (1 ≤ count_in entry) × (count_in entry ≤ 4) }
    ensures { (result.count ≡ at + count_in entry) × (result.bit ≡ bit) × LastKey keys.new result × (keys.new ≡ sets keys.old at (headed head base (parts_in entry))) }
{
    let n = count_in(entry);
    let first = head + part(entry);
    keys[at] = first;
    if n == 1 {
        return Last {
            count: at + 1,
            key: first,
            bit: bit,
        };
    }
    let second = base + part(entry / 8);
    keys[at + 1] = second;
    if n == 2 {
        return Last {
            count: at + 2,
            key: second,
            bit: bit,
        };
    }
    let third = base + part(entry / 64);
    keys[at + 2] = third;
    if n == 3 {
        return Last {
            count: at + 3,
            key: third,
            bit: bit,
        };
    }
    let fourth = base + part(entry / 512);
    keys[at + 3] = fourth;
    Last {
        count: at + 4,
        key: fourth,
        bit: bit,
    }
}

// Adds the runs of octet i: where its first touches the last run, the two become one. An octet of ones after a run that touches it is quickest.
fn add_octet(
    octets: &[u8],
    i: usize,
    base: u32,
    entries: &[u32],
    keys: &mut [u32],
    last: Last,
) -> Last
    requires { (i < length octets.now) × (length octets.now ≤ 30) × Stands octets.now (8 * i) keys.old last × (120 ≤ length keys.old) × (base ≡ i * 524296) × Rule entries.now }
    ensures { Turn octets.now (8 * (i + 1)) keys.old last keys.new result }
{
    let octet = octets[i];
    let x = widen(octet);
    if x == 0 {
        return Last {
            count: last.count,
            key: last.key,
            bit: 0,
        };
    }
    let place = usize::from(octet);
    let entry = entries[place];
    if last.bit + x == 256 {
        let key = last.key + 8;
        let at = last.count - 1;
        keys[at] = key;
        return Last {
            count: last.count,
            key: key,
            bit: 1,
        };
    }
    if last.bit + x / 128 == 2 {
        return put_runs(keys, last.count - 1, last.key + 1, base, entry, x % 2);
    }
    put_runs(keys, last.count, base, base, entry, x % 2)
}

// Writes the keys of all runs of at most 30 octets, by the table.
#[tactic(auto, using(crate::proofs::LastRun::stands_start, crate::proofs::LastRun::stands_end))]
fn fill(octets: &[u8], entries: &[u32], keys: &mut [u32]) -> usize
    requires { (length octets.now ≤ 30) × (120 ≤ length keys.old) × Rule entries.now }
    ensures { Filled octets.now keys.old keys.new result }
{
    let mut last = Last {
        count: 0,
        key: 0,
        bit: 0,
    };
    // 8 for each octet before, at both ends of a key; counted up, since the compiler makes the product of a turn twice
    let mut base: u32 = 0;
    for i in 0..octets.len() {
        last = add_octet(octets, i, base, entries, keys, last);
        base += 524296;
    }
    last.count
}

// The second engine, octet by octet by the table: it answers and leaves what `read_bits` does.
#[tactic(auto, unfolding(crate::specs::Bitmap::bitmap_found, crate::specs::Bitmap::bitmap_keys))]
pub fn read_octets(octets: &[u8], keys: &mut [u32]) -> Result<usize, BitmapError>
    ensures { (result ≡ bitmap_found octets.now (length keys.old)) × (keys.new ≡ bitmap_keys octets.now keys.old) }
{
    if keys.len() < Label::MAX_RUNS {
        return Err(BitmapError::Short);
    }
    if BITMAP_OCTETS < octets.len() {
        return Err(BitmapError::Long);
    }
    let entries = table();
    Ok(fill(octets, &entries, keys))
}

// Reads a bitmap by the engine that is quicker for its length: the same answer from either.
pub fn read_bitmap(octets: &[u8], keys: &mut [u32]) -> Result<usize, BitmapError>
    ensures { (result ≡ bitmap_found octets.now (length keys.old)) × (keys.new ≡ bitmap_keys octets.now keys.old) }
{
    if octets.len() <= SHORT_OCTETS {
        return read_bits(octets, keys);
    }
    read_octets(octets, keys)
}

// An engine's answer as a row: number 0 and how many runs there are; or the number of a refusal and 0.
pub fn row_of(found: Result<usize, BitmapError>) -> (u8, usize)
    ensures { (result.0 ≡ (row_of found).number) × (result.1 ≡ (row_of found).count) }
{
    match found {
        Ok(count) => (0, count),
        Err(error) => (u8::from(error), 0),
    }
}
