// The spelling of runs that are held as keys is written: the ten octets before the categories, and these in the chosen tag (document 01,
// "Option and tags" and "The leaving area").
#![tactic(auto)]

ghost use Rattle.std.specs.Prelude.{◌≡◌, ◌++◌, ◌+◌, ◌*◌, ◌/◌, ◌%◌, ◌≤◌, ◌<◌, length, drop, set};
ghost use Rattle.label.specs.Runs.{count_of};
ghost use Rattle.label_keys.specs.Keys.{key_runs};
ghost use Rattle.option.specs.Spelling.{octets_out, numbers_of, body_for, option_of};
ghost use Rattle.option.specs.Index.{numbers_out, pair_number};
ghost use Rattle.option_write.specs.Keys.{keys_count, keys_written, keys_laid};
ghost use Rattle.option_write.specs.Stages.{Written, head_of};

use label::{AsRun, Run};
use option::{
    ALIGNMENT_AT, BITMAP, CATEGORIES_AT, DOMAIN_AT, LENGTH_AT, LEVEL_AT, NUMBERS, OPTION_OCTETS,
    OPTION_TYPE, Spellings, TAG_LENGTH_AT, TAG_TYPE_AT,
};
use option_form::choose;
use option_write_bitmap::write_bitmap;

// Writes the spelling of the keys' runs to the front of the output and returns its length; or writes nothing and returns 0, where they have
// none or the output has under 40 octets.
pub fn write_keys(
    keys: &[u32],
    permitted: Spellings,
    domain: u32,
    level: u8,
    out: &mut [u8],
) -> usize
    ensures { (result ≡ keys_count permitted domain level keys.now (length out.old)) × (out.new ≡ keys_written permitted domain level keys.now out.old) }
{
    if out.len() < OPTION_OCTETS {
        return 0;
    }
    let form = choose(keys, permitted);
    if form.tag == 0 {
        return 0;
    }
    write_option(keys, form.tag, form.size, domain, level, out)
}

// The same, with zeros after the spelling up to octet 39.
pub fn spell_keys(
    keys: &[u32],
    permitted: Spellings,
    domain: u32,
    level: u8,
    out: &mut [u8],
) -> usize
    ensures { (result ≡ keys_count permitted domain level keys.now (length out.old)) × (out.new ≡ keys_laid permitted domain level keys.now out.old) }
{
    if out.len() < OPTION_OCTETS {
        return 0;
    }
    let form = choose(keys, permitted);
    let tag = form.tag;
    if tag == 0 {
        return 0;
    }
    // a fixed number of octets, and before the categories: what they leave stays zero
    out[CATEGORIES_AT..OPTION_OCTETS].fill(0);
    write_option(keys, tag, form.size, domain, level, out)
}

// The option of a tag with its size; returns its length.
fn write_option(keys: &[u32], tag: u8, size: usize, domain: u32, level: u8, out: &mut [u8]) -> usize
    requires { Written tag size (key_runs keys.now) × (40 ≤ length out.old) }
    ensures { (result ≡ 10 + size) × (out.new ≡ option_of domain level tag (body_for tag size (key_runs keys.now)) ++ drop (10 + size) out.old) }
{
    write_body(keys, tag, size, &mut out[CATEGORIES_AT..]);
    write_head(domain, level, tag, size, &mut out[..]);
    CATEGORIES_AT + size
}

// The categories of the spelling, in its tag.
fn write_body(keys: &[u32], tag: u8, size: usize, out: &mut [u8])
    requires { Written tag size (key_runs keys.now) × (30 ≤ length out.old) }
    ensures { out.new ≡ body_for tag size (key_runs keys.now) ++ drop size out.old }
{
    if tag == BITMAP {
        write_bitmap(keys, &mut out[..size]);
        return;
    }
    if tag == NUMBERS {
        write_numbers(keys, out);
        return;
    }
    write_pairs(keys, size / 2, out);
}

// Tag 2: every category as a two-octet number, lowest first.
fn write_numbers(keys: &[u32], out: &mut [u8])
    requires { 2 * count_of (key_runs keys.now) ≤ length out.old }
    ensures { out.new ≡ octets_out (numbers_of (key_runs keys.now)) ++ drop (2 * count_of (key_runs keys.now)) out.old }
{
    let mut k: usize = 0;
    for key in keys {
        let low = *key / Run::KEY_FACTOR;
        let high = *key % Run::KEY_FACTOR;
        for x in low..high + 1 {
            put_number(k, x as u16, &mut out[..]);
            k += 1;
        }
    }
}

// Number k, in two octets.
fn put_number(k: usize, x: u16, out: &mut [u8])
    requires { 2 * k + 1 < length out.old }
    ensures { (out.new ≡ set (set out.old (2 * k) (x / 256)) (2 * k + 1) (x % 256)) × (length out.new ≡ length out.old) }
{
    let [high, low] = x.to_be_bytes();
    out[2 * k] = high;
    out[2 * k + 1] = low;
}

// Tag 5: the first m ends, from the last run to the first, each run's top and then its bottom; m is odd where the last bottom is left out.
fn write_pairs(keys: &[u32], m: usize, out: &mut [u8])
    requires { (m ≤ 15) × (m ≤ 2 * length keys.now) × (2 * m ≤ length out.old) }
    ensures { out.new ≡ numbers_out (pair_number (key_runs keys.now)) m ++ drop (2 * m) out.old }
{
    let n = keys.len();
    let pairs = m / 2;
    for j in 0..pairs {
        let at = n - 1 - j;
        let key = keys[at];
        put_number(2 * j, key.high(), &mut out[..]);
        put_number(2 * j + 1, key.low(), &mut out[..]);
    }
    if 2 * pairs < m {
        let at = n - 1 - pairs;
        put_number(2 * pairs, keys[at].high(), &mut out[..]);
    }
}

// The ten octets before the categories.
fn write_head(domain: u32, level: u8, tag: u8, size: usize, out: &mut [u8])
    requires { (10 ≤ length out.old) × (size ≤ 30) }
    ensures { out.new ≡ head_of domain level tag size ++ drop 10 out.old }
{
    out[0] = OPTION_TYPE;
    out[LENGTH_AT] = (CATEGORIES_AT + size) as u8;
    let [first, second, third, fourth] = domain.to_be_bytes();
    out[DOMAIN_AT] = first;
    out[DOMAIN_AT + 1] = second;
    out[DOMAIN_AT + 2] = third;
    out[DOMAIN_AT + 3] = fourth;
    out[TAG_TYPE_AT] = tag;
    out[TAG_LENGTH_AT] = (4 + size) as u8;
    out[ALIGNMENT_AT] = 0;
    out[LEVEL_AT] = level;
}
