// A label's runs carried to the far domain by search: the first row of each run is found by halves, so that what a small label costs does not grow with
// its table. Nothing is checked anew: of rows that were checked once the answer is that of `renumber_keys`.
#![tactic(auto)]

ghost use Rattle.std.specs.Prelude.{◌≡◌, ◌+◌, ◌-◌, ◌*◌, ◌/◌, ◌%◌, ◌≤◌, min, length, take, drop, MatchOption};
ghost use Rattle.label_keys.specs.Keys.{key_runs};
ghost use Rattle.table.specs.Table.{rows_from};
ghost use Rattle.renumber_keys.specs.Stages.{join_all, piece_key};
ghost use Rattle.renumber_search.specs.Search.{halves, bisect, gives_to, run_cut, cuts_from, over, room_for, searched_of, searched_keys};
ghost use Rattle.renumber_search.specs.Stages.{RunIsCut, RunFails, AllCut, AllFail};
ghost use Rattle.lists_sort.specs.Order.{sort_keys};

use label_ranges::{reaches, stretch};
use lists_sort::sort_keys;
use table::{Row, row_at};

// From row `from` on: the number of the first row that ends at c or after it, that of all rows where there is none. Of rows that do not rise it
// answers what the search comes to; from a place past the last row on it answers that place.
pub fn find_row(rows: &[u16], from: usize, c: u32) -> usize
    ensures { result ≡ bisect (rows_from rows.now) from c }
{
    if rows.len() / 3 <= from {
        return from;
    }
    // the row at hand first: runs that follow one another often lie in one row
    let row = row_at(rows, from);
    let end = u32::from(row.high);
    if c <= end {
        return from;
    }
    halve_rows(rows, from, c)
}

fn halve_rows(rows: &[u16], from: usize, c: u32) -> usize
    ensures { result ≡ halves (rows_from rows.now) from c }
{
    // two ends that close on each other
    let mut low = from;
    let mut high = rows.len() / 3;
    while low < high {
        let middle = low + (high - low) / 2;
        let at = middle * 3 + 1;
        let end = u32::from(rows[at]);
        if end < c {
            low = middle + 1;
        } else {
            high = middle;
        }
    }
    low
}

// The first n keys, or all where there are fewer, carried by rows: where every category lies in a row, how many runs the numbers have, and these runs as keys
// at the head of the lent list, which has a place for each key and each row, else nothing is carried. Behind them the list holds pieces that were joined.
pub fn carry_rows(own: &[u32], n: usize, rows: &[u16], far: &mut [u32]) -> Option<usize>
    ensures { (result ≡ searched_of (rows_from rows.now) (key_runs (take n own.now)) (length far.old)) × (far.new ≡ searched_keys (rows_from rows.now) (key_runs (take n own.now)) far.old) }
{
    let m = n.min(own.len());
    if !has_room(m, rows.len() / 3, far.len()) {
        return None;
    }
    let k = cut_runs(&own[..m], rows, far)?;
    order_keys(&mut far[..k]);
    Some(join_keys(&mut far[..k]))
}

// Whether there is a place for each run and each row.
fn has_room(runs: usize, rows: usize, room: usize) -> bool
    ensures { result ≡ room_for runs rows room }
{
    if room < runs {
        return false;
    }
    rows <= room - runs
}

// How far cutting has come: the row at hand, and how many pieces are written.
#[derive(Clone, Copy)]
struct Cut {
    row: usize,
    count: usize,
}

// The pieces of all runs, each behind the one before, from the head of the list on, and how many they are; none where a category lies in no row.
fn cut_runs(own: &[u32], rows: &[u16], far: &mut [u32]) -> Option<usize>
    requires { length own.now + length (rows_from rows.now) ≤ length far.old }
    ensures { MatchOption result (AllFail (cuts_from (rows_from rows.now) 0 (key_runs own.now)) far.old far.new) (λ k. AllCut (cuts_from (rows_from rows.now) 0 (key_runs own.now)) k far.old far.new) }
{
    let mut w: usize = 0;
    let mut j: usize = 0;
    for run in own {
        let first = find_row(rows, j, *run / 65536);
        let cut = cut_run(rows, first, *run, far, w)?;
        j = cut.row;
        w = cut.count;
    }
    Some(w)
}

// The pieces of one run, from place w on: the run is cut at the end of each row. None where a category lies in no row.
fn cut_run(rows: &[u16], row: usize, run: u32, far: &mut [u32], w: usize) -> Option<Cut>
    requires { w + (length (rows_from rows.now) - row) ≤ length far.old }
    ensures { MatchOption result (RunFails (run_cut (drop row (rows_from rows.now)) (run / 65536) (run % 65536)) w far.old far.new) (λ c. RunIsCut (run_cut (drop row (rows_from rows.now)) (run / 65536) (run % 65536)) row w c.row c.count far.old far.new) }
{
    let m = rows.len() / 3;
    let high = run % 65536;
    let mut low = run / 65536;
    let mut k = w;
    for j in row..m {
        let r = row_at(rows, j);
        let end = u32::from(r.high);
        let top = high.min(end);
        if !gives_to(r, low, top) {
            return None;
        }
        far[k] = piece_key(r, low, top);
        k += 1;
        if high <= end {
            return Some(Cut { row: j, count: k });
        }
        low = end + 1;
    }
    None
}

// Whether the row gives each of these categories a number.
fn gives_to(row: Row, low: u32, high: u32) -> bool
    requires { high ≤ 65535 }
    ensures { result ≡ gives_to row low high }
{
    let base = u32::from(row.low);
    let target = u32::from(row.target);
    if low < base {
        return false;
    }
    if high < low {
        return false;
    }
    target + (high - base) <= 65534
}

// The numbers of these categories, as one key.
fn piece_key(row: Row, low: u32, high: u32) -> u32
    requires { (row.low ≤ low) × (low ≤ high) × (row.target + (high - row.low) ≤ 65534) }
    ensures { result ≡ piece_key row low high }
{
    let target = u32::from(row.target);
    let base = u32::from(row.low);
    (target + (low - base)) * 65536 + (target + (high - base))
}

// The keys are put in order, where they do not stand so.
fn order_keys(keys: &mut [u32])
    ensures { keys.new ≡ sort_keys keys.old }
{
    if keys.is_sorted() {
        return;
    }
    let n = keys.len();
    sort_keys(keys, n);
}

// The keys, which are in order, joined where they touch, at the head of the list; the rest stays.
fn join_keys(keys: &mut [u32]) -> usize
    ensures { (result ≡ length (join_all keys.old)) × (keys.new ≡ over (join_all keys.old) keys.old) }
{
    let n = keys.len();
    if n == 0 {
        return 0;
    }
    let mut last = keys[0];
    let mut w: usize = 0;
    for i in 1..n {
        let x = keys[i];
        if reaches(last, x) {
            last = stretch(last, x);
        } else {
            keys[w] = last;
            w += 1;
            last = x;
        }
    }
    keys[w] = last;
    w + 1
}
