// The form of a spelling: of the permitted tags and sizes that hold a label's runs the shortest (document 01, "The leaving area"; document 02,
// Wish 5).
#![tactic(auto)]

ghost use Rattle.std.specs.Prelude.{◌≡◌, cond, ◌&&◌, ℕ, ◌+◌, ◌-◌, ◌*◌, ◌/◌, ◌%◌, ◌≤◌, ◌<◌, leb, eqb};
ghost use Rattle.label.specs.Runs.{count_of};
ghost use Rattle.label_keys.specs.Keys.{key_runs};
ghost use Rattle.option.specs.Permitted.{usual};
ghost use Rattle.option.specs.Spelling.{form_if, shorter, least_form};
ghost use Rattle.option_form.specs.Spelled.{length_of};
ghost use Rattle.option_form.specs.Keys.{keys_form, keys_spelled};
ghost use Rattle.option_form.specs.Stages.{capped};

use label::{Label, Run};
use option::{BITMAP, CATEGORIES_AT, Form, NUMBERS, PAIRS, Spellings};

// The most octets of categories that a tag 1, a tag 2 and a tag 5 have: 240 bits, 15 numbers, 7 pairs; and those of the ten-octet form.
const BITMAP_OCTETS: usize = (Label::BITMAP_CATEGORIES / 8) as usize;

const TEN_OCTETS: usize = 10;

const NUMBERS_OCTETS: usize = 30;

const PAIRS_OCTETS: usize = 28;

// What a form is given that may not be taken: more octets than any has.
const NO_OCTETS: usize = 31;

// One category more than a tag 2 holds.
const TOO_MANY_NUMBERS: usize = 16;

// So many runs are few: their categories are counted without a test at each.
const FEW_RUNS: usize = 16;

// The length of the spelling of the keys' runs, in any domain at any level, or 0 where they have none.
pub fn keys_length(keys: &[u32], permitted: Spellings) -> usize
    ensures { (d v : ℕ) → result ≡ length_of (keys_spelled permitted d v keys.now) }
{
    let form = choose(keys, permitted);
    if form.tag == 0 {
        return 0;
    }
    CATEGORIES_AT + form.size
}

// The form of the spelling of the keys' runs, or tag 0 where they have none.
pub fn choose(keys: &[u32], permitted: Spellings) -> Form
    ensures { result ≡ keys_form permitted keys.now }
{
    let n = keys.len();
    if n == 0 {
        return least(permitted, 0, 0, 0);
    }
    if Label::MAX_RUNS < n {
        return Form {
            tag: 0,
            size: NO_OCTETS,
        };
    }
    let first = keys[0];
    let last = keys[n - 1];
    let one = bitmap_size(last % Run::KEY_FACTOR);
    let two = 2 * count_categories(keys);
    let five = pairs_size(n, first / Run::KEY_FACTOR);
    least(permitted, one, two, five)
}

// The octets of a bitmap up to the category.
fn bitmap_size(high: u32) -> usize
    ensures { result ≡ (high + 1 + 7) / 8 }
{
    (high as usize + 1 + 7) / 8
}

// The octets of n pairs; a last bottom of 0 is left out.
fn pairs_size(n: usize, low: u32) -> usize
    requires { (0 < n) × (n ≤ 120) }
    ensures { result ≡ 4 * n - cond (eqb low 0) 2 0 }
{
    if low == 0 {
        return 4 * n - 2;
    }
    4 * n
}

// How many categories a key's run has.
fn span(key: u32) -> u32
    ensures { (result ≡ key % 65536 + 1 - key / 65536) × (result ≤ 65536) }
{
    let low = key / Run::KEY_FACTOR;
    let high = key % Run::KEY_FACTOR;
    if high < low {
        return 0;
    }
    high + 1 - low
}

// How many categories the runs have, or 16 where they are over 15: too many for tag 2. Up to 16 runs are gone through without a test at each, in
// words of 32 bits, of which four are added at a time.
#[tactic(auto, using(crate::proofs::Keys::count_more, crate::proofs::Keys::count_split, crate::proofs::Sizes::capped_is))]
fn count_categories(keys: &[u32]) -> usize
    ensures { result ≡ capped (count_of (key_runs keys.now)) }
{
    let few = keys.len().min(FEW_RUNS);
    let mut n: u32 = 0;
    for key in &keys[..few] {
        n += span(*key);
    }
    for key in &keys[few..] {
        if TOO_MANY_NUMBERS <= n as usize {
            return TOO_MANY_NUMBERS;
        }
        n += span(*key);
    }
    (n as usize).min(TOO_MANY_NUMBERS)
}

// A form that is permitted and whose tag holds what is needed, or none.
fn form_if(permitted: bool, needed: usize, most: usize, tag: u8, size: usize) -> Form
    ensures { result ≡ form_if (permitted && leb needed most) tag size }
{
    if !permitted {
        return Form {
            tag: 0,
            size: NO_OCTETS,
        };
    }
    if most < needed {
        return Form {
            tag: 0,
            size: NO_OCTETS,
        };
    }
    Form {
        tag: tag,
        size: size,
    }
}

// The shorter of two forms, equal lengths to the first.
fn shorter_of(first: Form, second: Form) -> Form
    ensures { result ≡ shorter first second }
{
    if first.size <= second.size {
        return first;
    }
    second
}

fn takes_one(one: usize, two: usize, five: usize) -> bool
    ensures { result ≡ (leb one 30 && (leb one two && leb one five)) }
{
    one <= BITMAP_OCTETS && (one <= two && one <= five)
}

fn takes_two(two: usize, five: usize) -> bool
    ensures { result ≡ (leb two 30 && leb two five) }
{
    two <= NUMBERS_OCTETS && two <= five
}

fn takes_five(five: usize) -> bool
    ensures { result ≡ leb five 28 }
{
    five <= PAIRS_OCTETS
}

// The same of tags 1, 2 and 5, which most ports permit.
fn least_usual(one: usize, two: usize, five: usize) -> Form
    requires { five % 2 ≡ 0 }
    ensures { result ≡ least_form usual one two five }
{
    if takes_one(one, two, five) {
        return Form {
            tag: BITMAP,
            size: one,
        };
    }
    if takes_two(two, five) {
        return Form {
            tag: NUMBERS,
            size: two,
        };
    }
    if takes_five(five) {
        return Form {
            tag: PAIRS,
            size: five,
        };
    }
    Form {
        tag: 0,
        size: NO_OCTETS,
    }
}

// Of the permitted forms that hold the categories the shortest, equal lengths to tag 1, then its ten octets, then tag 2, then tag 5.
fn least(permitted: Spellings, one: usize, two: usize, five: usize) -> Form
    requires { five % 2 ≡ 0 }
    ensures { result ≡ least_form permitted one two five }
{
    if permitted.is_usual() {
        return least_usual(one, two, five);
    }
    let shortest = form_if(permitted.shortest, one, BITMAP_OCTETS, BITMAP, one);
    let ten = form_if(permitted.ten, one, TEN_OCTETS, BITMAP, TEN_OCTETS);
    let numbers = form_if(permitted.numbers, two, NUMBERS_OCTETS, NUMBERS, two);
    let pairs = form_if(permitted.pairs, five, PAIRS_OCTETS, PAIRS, five);
    shorter_of(shortest, shorter_of(ten, shorter_of(numbers, pairs)))
}
