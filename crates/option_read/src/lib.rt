// Reading one CIPSO option (document 01, "Option and tags", "Asked alone" and rows 3 and 7 to 13 of the table): the label that it means,
// or the first refusal that applies with its place in the option.
#![tactic(auto)]

ghost use Rattle.std.specs.Prelude.{◌≡◌, ◌+◌, ◌%◌, ◌≤◌, ◌<◌, true, not, ◌&&◌, leb, length, Ok, Err};
ghost use Rattle.option.specs.Option.{domain_of};
ghost use Rattle.option_read.specs.Stages.{PassOver, ReadsTag, foreign_to, ReadsRows, ReadsChecked};
ghost use Rattle.option_read.specs.Reading.{known_tag, good_length, framed, fault, told, reading_row, reading_of};
ghost use Rattle.option_read.specs.Keys.{row_of, Refused, ReadsKeys};

use label::Label;
use label_keys::to_label;
use option_read_bitmap::read_bitmap;
use option_read_numbers::{BadNumber, read_numbers, read_pairs};

// The length octet of a tag: at least its four octets before the categories, at most 30 more; of tag 5 at most seven pairs.
const SHORTEST_TAG: usize = 4;

const LONGEST_TAG: usize = 34;

const LONGEST_PAIRS: usize = 32;

// Whether an option is read alone, and the domain that is then given.
const ALONE: bool = true;

const IN_AN_AREA: bool = false;

const NO_DOMAIN: u32 = 0;

// A refusal: its number, with its place in the option.
#[derive(Clone, Copy)]
pub struct Fault {
    pub number: u8,
    pub at: usize,
}

// What is read of an option whose runs stand in a lent list as keys, low · 65536 + high: the level, and how many keys there are.
#[derive(Clone, Copy)]
pub struct KeysRead {
    pub level: u8,
    pub count: usize,
}

fn refuse(number: u8, at: usize) -> Result<KeysRead, Fault>
    ensures { result ≡ Err (fault number at) }
{
    Err(Fault { number, at })
}

// Tag 1, by the table; none of its categories can be bad.
fn bitmap_keys(octets: &[u8], keys: &mut [u32]) -> usize
    requires { (length octets.now ≤ 30) × (120 ≤ length keys.old) }
    ensures { PassOver 1 octets.now keys.old keys.new (Ok result) }
{
    // no call for the option without categories
    if octets.len() == 0 {
        return 0;
    }
    read_bitmap(octets, keys).unwrap()
}

// A tag's categories, checked and written as keys: how many there are, and where the first bad one begins. Tag 1 is last, so that the compiler asks for tag 5 first.
fn category_keys(tag: u8, octets: &[u8], keys: &mut [u32]) -> Result<usize, BadNumber>
    requires { (length octets.now ≤ 30) × ((tag ≡ 1 → ⊥) → length octets.now % 2 ≡ 0) × (120 ≤ length keys.old) × (known_tag tag ≡ true) }
    ensures { PassOver tag octets.now keys.old keys.new result }
{
    if tag == option::NUMBERS {
        return read_numbers(octets, keys);
    }
    if tag == option::PAIRS {
        return read_pairs(octets, keys);
    }
    Ok(bitmap_keys(octets, keys))
}

fn known_tag(tag: u8) -> bool
    ensures { result ≡ known_tag tag }
{
    if tag == option::BITMAP {
        return true;
    }
    if tag == option::NUMBERS {
        return true;
    }
    tag == option::PAIRS
}

// Whether the tag's length is valid for its type and within an option of n octets.
fn good_length(tag: u8, size: usize, n: usize) -> bool
    requires { size < 256 }
    ensures { result ≡ (good_length tag size && leb (size + 6) n) }
{
    if n < size + option::TAG_TYPE_AT {
        return false;
    }
    if size < SHORTEST_TAG {
        return false;
    }
    if tag == option::BITMAP {
        return size <= LONGEST_TAG;
    }
    if size % 2 != 0 {
        return false;
    }
    if tag == option::PAIRS {
        return size <= LONGEST_PAIRS;
    }
    size <= LONGEST_TAG
}

fn length_in(x: u8) -> usize
    ensures { (result ≡ x) × (result < 256) }
{
    usize::from(x)
}

// The domain: four octets from octets[2] on, big-endian.
fn domain_in(octets: &[u8]) -> u32
    requires { 10 ≤ length octets.now }
    ensures { result ≡ domain_of octets.now }
{
    u32::from_be_bytes([octets[2], octets[3], octets[4], octets[5]])
}

// Rows 9 to 13, and the keys.
fn read_tag(octets: &[u8], keys: &mut [u32]) -> Result<KeysRead, Fault>
    requires { (10 ≤ length octets.now) × (120 ≤ length keys.old) }
    ensures { ReadsTag octets.now keys.old keys.new result }
{
    let n = octets.len();
    let tag = octets[option::TAG_TYPE_AT];
    if !known_tag(tag) {
        return refuse(9, option::TAG_TYPE_AT);
    }
    let size = length_in(octets[option::TAG_LENGTH_AT]);
    if !good_length(tag, size, n) {
        return refuse(10, option::TAG_LENGTH_AT);
    }
    if octets[option::ALIGNMENT_AT] != 0 {
        return refuse(11, option::ALIGNMENT_AT);
    }
    let end = size + option::TAG_TYPE_AT;
    let categories = &octets[option::CATEGORIES_AT..end];
    match category_keys(tag, categories, keys) {
        Err(bad) => refuse(12, option::CATEGORIES_AT + bad.at),
        Ok(count) => {
            if end < n {
                return refuse(13, end);
            }
            Ok(KeysRead {
                level: octets[option::LEVEL_AT],
                count,
            })
        }
    }
}

// Row 3 of an option alone: it does not begin with 134 or does not fill its buffer.
fn unframed(octets: &[u8], alone: bool) -> bool
    ensures { result ≡ (alone && not (framed octets.now)) }
{
    if !alone {
        return false;
    }
    let n = octets.len();
    if n < 2 {
        return true;
    }
    if octets[0] != option::OPTION_TYPE {
        return true;
    }
    let size = length_in(octets[option::LENGTH_AT]);
    size != n
}

// Row 8: alone domain 0, for a port every other one.
fn foreign(alone: bool, found: u32, domain: u32) -> bool
    ensures { result ≡ foreign_to alone domain found }
{
    if alone {
        return found == 0;
    }
    found != domain
}

// Rows 3 and 7 to 13, and the keys: of an option alone, or for a port of the domain.
fn read_rows(octets: &[u8], alone: bool, domain: u32, keys: &mut [u32]) -> Result<KeysRead, Fault>
    requires { 120 ≤ length keys.old }
    ensures { ReadsRows alone domain octets.now keys.old keys.new result }
{
    if unframed(octets, alone) {
        return refuse(3, 0);
    }
    if octets.len() < option::CATEGORIES_AT {
        return refuse(7, option::LENGTH_AT);
    }
    if foreign(alone, domain_in(octets), domain) {
        return refuse(8, option::DOMAIN_AT);
    }
    read_tag(octets, keys)
}

// The same with a list of any length. One function for both, so that what calls it is small enough to become part of its callers: a label is then
// built where it is used, and not copied. The list's length is tested here, so that no tag's reader has to: the compiler leaves their tests out.
fn read_checked(
    octets: &[u8],
    alone: bool,
    domain: u32,
    keys: &mut [u32],
) -> Result<KeysRead, Fault>
    ensures { ReadsChecked alone domain octets.now keys.old keys.new result }
{
    if Label::MAX_RUNS <= keys.len() {
        return read_rows(octets, alone, domain, keys);
    }
    refuse(1, 0)
}

// Reads one option alone: the label that it means, or the first refusal of 3 and 7 to 13 with its place in the option.
pub fn read_option(octets: &[u8]) -> Result<Label, Fault>
    ensures { result ≡ told (reading_of octets.now) }
{
    let mut keys = [0u32; Label::MAX_RUNS];
    let read = read_checked(octets, ALONE, NO_DOMAIN, &mut keys)?;
    Ok(to_label(&keys, read.count, domain_in(octets), read.level))
}

// What reading one option alone answers as a row: number 0, pointer 0 and the label; or a refusal's number, its place in the option, and the all-zero label.
pub fn reading_row(read: Result<Label, Fault>) -> (u8, usize, Label)
    ensures { (result.0 ≡ (reading_row read).number) × (result.1 ≡ (reading_row read).pointer) × (result.2 ≡ (reading_row read).label) }
{
    match read {
        Ok(label) => (0, 0, label),
        Err(fault) => (fault.number, fault.at, Label::empty(0, 0)),
    }
}

// Reads the option 134 of an area for a port of the domain into keys: its level and how many there are, or the first refusal of 7 to 13 with its place
// in the option; 1 where the list has under 120 numbers.
pub fn read_keys(octets: &[u8], domain: u32, keys: &mut [u32]) -> Result<KeysRead, Fault>
    ensures read { ReadsKeys domain octets.now keys.old keys.new (row_of result) }
    ensures refused { Refused result }
{
    read_checked(octets, IN_AN_AREA, domain, keys)
}
