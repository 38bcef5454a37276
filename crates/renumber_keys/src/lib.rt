// A level and the runs of a label carried to the far domain: the level's partner, and the numbers that the rows of a table give to the categories.
#![tactic(auto)]

ghost use Rattle.std.specs.Prelude.{Some};
ghost use Rattle.std.specs.Prelude.{◌≡◌, true, ◌+◌, ◌*◌, ◌≤◌, ◌<◌, length, take, drop, get_or};
ghost use Rattle.label.specs.Runs.{spaced};
ghost use Rattle.label_keys.specs.Keys.{key_runs};
ghost use Rattle.table.specs.Table.{lent, no_row, rows_from, target_end, rising};
ghost use Rattle.table.specs.Numbers.{numbered, in_image};
ghost use Rattle.renumber_keys.specs.Sets.{runs_of};
ghost use Rattle.renumber_keys.specs.Carry.{number_of, row_of, image_of, label_runs, carried_to, carried_keys, carry_of};
ghost use Rattle.renumber_keys.specs.Stages.{push_key, join_onto, piece_key, Ready, Cut, parts_of, Inside, Joined, carried_by};

use label::Label;
use label_ranges::{reaches, stretch};
use table::{FEW_ROWS, MAX_ROWS, Row, Table, bare_order};
use table_levels::{Levels, look_levels};

// The level's partner, and how many runs were written down.
#[derive(Clone, Copy)]
pub struct Carried {
    pub level: u8,
    pub count: usize,
}

// Why nothing was carried.
#[derive(Clone, Copy)]
pub enum CarryError {
    // 2: an unsound table, keys that are not the runs of a well-formed label, or too short a list
    Unsound,
    // 16: the level or a category has no number
    NoNumber,
}

// The number of the refusal.
impl From<CarryError> for u8 {
    ghost from_gives = { λ e n. n ≡ number_of e };

    fn from(error: CarryError) -> u8 {
        match error {
            CarryError::Unsound => 2,
            CarryError::NoNumber => 16,
        }
    }
}

// The row of an answer: number, level and count; a refusal has level and count 0.
pub fn row_of(answer: Result<Carried, CarryError>) -> (u8, u8, usize)
    ensures { (result.0 ≡ (row_of answer).number) × (result.1 ≡ (row_of answer).level) × (result.2 ≡ (row_of answer).count) }
{
    match answer {
        Ok(carried) => (0, carried.level, carried.count),
        Err(error) => (u8::from(error), 0, 0),
    }
}

// The most runs that a label's categories have in the far domain: its 120 runs, cut by 1,024 rows; and cut by few rows.
pub const MOST_RUNS: usize = 1144;

pub const FEW_RUNS: usize = 184;

// A level and the runs of a label, the first n keys or all where there are fewer, carried to the far domain: the level's partner, how many runs the
// categories' numbers have, and these runs as keys at the head of the lent list. 2 for an unsound table, keys that are not the runs of a well-formed
// label, or a list of under 120 places and one for each row; 16 where the level or a category has no number; then the list stays as it was.
pub fn carry(
    keys: &[u32],
    n: usize,
    level: u8,
    table: Table,
    rows: &[u16],
    levels: Levels,
    far: &mut [u32],
) -> Result<Carried, CarryError>
    ensures { (result ≡ carry_of (key_runs (take n keys.now)) level (lent table rows.now) levels (length far.old)) × (far.new ≡ carried_keys result (image_of (lent table rows.now) (key_runs (take n keys.now))) far.old) }
{
    let own = &keys[..n.min(keys.len())];
    let Some(partner) = look_levels(levels, table.pairs, level) else {
        return Err(CarryError::Unsound);
    };
    if table.count <= FEW_ROWS {
        return carry_in::<FEW_ROWS>(own, partner, table, rows, far);
    }
    carry_in::<MAX_ROWS>(own, partner, table, rows, far)
}

// The same of level pairs that were looked at, with room for the order of so many rows: all of it is zeroed.
fn carry_in<const ROWS: usize>(
    own: &[u32],
    partner: Option<u8>,
    table: Table,
    rows: &[u16],
    far: &mut [u32],
) -> Result<Carried, CarryError>
    requires { (ROWS ≤ 1024) × (table.count ≤ 1024 → table.count ≤ ROWS) }
    ensures { (result ≡ carried_by partner (key_runs own.now) (lent table rows.now) (length far.old)) × (far.new ≡ carried_keys result (image_of (lent table rows.now) (key_runs own.now)) far.old) }
{
    let mut order = [0u32; ROWS];
    carry_by(own, partner, table, rows, &mut order, far)
}

// The same with the room for the rows' order.
fn carry_by(
    own: &[u32],
    partner: Option<u8>,
    table: Table,
    rows: &[u16],
    order: &mut [u32],
    far: &mut [u32],
) -> Result<Carried, CarryError>
    requires { table.count ≤ 1024 → table.count ≤ length order.old }
    ensures { (result ≡ carried_by partner (key_runs own.now) (lent table rows.now) (length far.old)) × (far.new ≡ carried_keys result (image_of (lent table rows.now) (key_runs own.now)) far.old) }
{
    let bare = bare_order(table, rows, order);
    let formed = keys_formed(own);
    if !(bare & formed) {
        return Err(CarryError::Unsound);
    }
    let count = table.count;
    if far.len() < Label::MAX_RUNS + count {
        return Err(CarryError::Unsound);
    }
    let Some(level) = partner else {
        return Err(CarryError::NoNumber);
    };
    carry_checked(own, level, rows, count, order, far)
}

// Whether the keys are the runs of a well-formed label. The pass does not end early; the ends ascend, so the last alone is held against the
// highest category.
fn keys_formed(own: &[u32]) -> bool
    ensures { result ≡ label_runs (key_runs own.now) }
{
    if Label::MAX_RUNS < own.len() {
        return false;
    }
    let mut good = true;
    let mut floor: u32 = 0;
    for key in own {
        let low = *key / 65536;
        let high = *key % 65536;
        good = good & (floor <= low) & (low <= high);
        floor = high + 2;
    }
    good & (floor <= 65536)
}

// The same for what was checked, with the rows in order: gathered row by row in the order of their targets, nothing is sorted.
fn carry_checked(
    own: &[u32],
    level: u8,
    rows: &[u16],
    m: usize,
    order: &[u32],
    far: &mut [u32],
) -> Result<Carried, CarryError>
    requires { (120 + m ≤ length far.old) × Ready (rows_from rows.now) m order.now (key_runs own.now) }
    ensures { (result ≡ carried_to (Some level) (numbered (rows_from rows.now) (key_runs own.now)) (runs_of (in_image (rows_from rows.now) (key_runs own.now)))) × (far.new ≡ carried_keys result (runs_of (in_image (rows_from rows.now) (key_runs own.now))) far.old) }
{
    if own.is_empty() {
        // no run: no row is looked at
        return Ok(Carried { level, count: 0 });
    }
    if m <= FEW_ROWS {
        return gather_in::<65, FEW_RUNS>(own, level, rows, m, order, far);
    }
    gather_in::<1025, MOST_RUNS>(own, level, rows, m, order, far)
}

// The runs' numbers with room for so many pieces and places: one place more than there are rows.
fn gather_in<const PLACES: usize, const PIECES: usize>(
    own: &[u32],
    level: u8,
    rows: &[u16],
    m: usize,
    order: &[u32],
    far: &mut [u32],
) -> Result<Carried, CarryError>
    requires { (PLACES ≤ 1025) × (PIECES ≤ 1144) × (m < PLACES) × (120 + m ≤ PIECES) × (120 + m ≤ length far.old) × Ready (rows_from rows.now) m order.now (key_runs own.now) }
    ensures { (result ≡ carried_to (Some level) (numbered (rows_from rows.now) (key_runs own.now)) (runs_of (in_image (rows_from rows.now) (key_runs own.now)))) × (far.new ≡ carried_keys result (runs_of (in_image (rows_from rows.now) (key_runs own.now))) far.old) }
{
    let mut start = [0u16; PLACES];
    let mut cut = [0u32; PIECES];
    gather(own, level, rows, m, order, &mut cut, &mut start, far)
}

// Both passes, with room for the pieces and for each row's place among them.
fn gather(
    own: &[u32],
    level: u8,
    rows: &[u16],
    m: usize,
    order: &[u32],
    cut: &mut [u32],
    start: &mut [u16],
    far: &mut [u32],
) -> Result<Carried, CarryError>
    requires { (120 + m ≤ length cut.old) × (m < length start.old) × (120 + m ≤ length far.old) × Ready (rows_from rows.now) m order.now (key_runs own.now) }
    ensures { (result ≡ carried_to (Some level) (numbered (rows_from rows.now) (key_runs own.now)) (runs_of (in_image (rows_from rows.now) (key_runs own.now)))) × (far.new ≡ carried_keys result (runs_of (in_image (rows_from rows.now) (key_runs own.now))) far.old) }
{
    if !cut_runs(own, rows, m, cut, start) {
        return Err(CarryError::NoNumber);
    }
    let count = join_rows(cut, start, &order[..m], far);
    Ok(Carried { level, count })
}

// One pass over the m rows and the ranges: whether every category lies in a row, and the pieces that the rows cut out of the ranges, those of
// one row behind those of the row before; for each row the place where its pieces begin.
fn cut_runs(own: &[u32], rows: &[u16], m: usize, cut: &mut [u32], start: &mut [u16]) -> bool
    requires { (length own.now ≤ 120) × (120 + m ≤ length cut.old) × (m < length start.old) × (m ≤ 1024) × (length (rows_from rows.now) ≡ m) × (rising 0 (rows_from rows.now) ≡ true) × (spaced 0 (key_runs own.now) ≡ true) }
    ensures { Cut (rows_from rows.now) (key_runs own.now) result cut.new start.new }
{
    let n = own.len();
    let mut from: u32 = 0;
    let mut w: usize = 0;
    let mut i: usize = 0;
    let mut j: usize = 0;
    start[0] = 0;
    while j < m {
        if n <= i {
            j += 1;
            start[j] = w as u16;
        } else {
            let run = own[i];
            let row = read_row(rows, j);
            let low = (run / 65536).max(from);
            let high = run % 65536;
            let base = row.low as u32;
            let top = row.high as u32;
            if high <= top {
                if low < base {
                    return false;
                }
                cut[w] = piece_key(row, low, high);
                w += 1;
                i += 1;
            } else if top < low {
                j += 1;
                start[j] = w as u16;
            } else {
                if low < base {
                    return false;
                }
                cut[w] = piece_key(row, low, top);
                w += 1;
                from = top + 1;
                j += 1;
                start[j] = w as u16;
            }
        }
    }
    n <= i
}

// A row that is there.
fn read_row(rows: &[u16], i: usize) -> Row
    requires { i * 3 + 3 ≤ length rows.now }
    ensures { result ≡ get_or (rows_from rows.now) i no_row }
{
    let at = i * 3;
    Row {
        low: rows[at],
        high: rows[at + 1],
        target: rows[at + 2],
    }
}

// The pieces of the rows in order, joined where they touch.
fn join_rows(cut: &[u32], start: &[u16], order: &[u32], keys: &mut [u32]) -> usize
    requires { Inside order.now start.now cut.now × (length (parts_of order.now start.now cut.now) ≤ length keys.old) }
    ensures { Joined (parts_of order.now start.now cut.now) keys.old result keys.new }
{
    let mut w: usize = 0;
    for x in order {
        let j = (*x % 65536) as usize;
        w = join_row(cut, start[j] as usize, start[j + 1] as usize, keys, w);
    }
    w
}

// The pieces from a to e are put behind the first w keys.
fn join_row(cut: &[u32], a: usize, e: usize, keys: &mut [u32], w: usize) -> usize
    requires { (e ≤ length cut.now) × (w + length (drop a (take e cut.now)) ≤ length keys.old) }
    ensures { (w ≤ result) × (result ≤ w + length (drop a (take e cut.now))) × (drop result keys.new ≡ drop result keys.old) × (take result keys.new ≡ join_onto (take w keys.old) (drop a (take e cut.now))) }
{
    let mut k = w;
    for i in a..e {
        k = push_key(keys, k, cut[i]);
    }
    k
}

// The numbers of the categories low to high of a row, as one key.
fn piece_key(row: Row, low: u32, high: u32) -> u32
    requires { (row.low ≤ low) × (low ≤ high) × (high ≤ row.high) × (target_end row ≤ 65534) }
    ensures { result ≡ piece_key row low high }
{
    let target = u32::from(row.target);
    let base = u32::from(row.low);
    (target + (low - base)) * 65536 + (target + (high - base))
}

// The range is put behind the first w, or joined to the last where they touch.
fn push_key(keys: &mut [u32], w: usize, x: u32) -> usize
    requires { w < length keys.old }
    ensures { (w ≤ result) × (result ≤ w + 1) × (drop result keys.new ≡ drop result keys.old) × (take result keys.new ≡ push_key (take w keys.old) x) }
{
    if w == 0 {
        keys[0] = x;
        return 1;
    }
    let last = keys[w - 1];
    if reaches(last, x) {
        keys[w - 1] = stretch(last, x);
        return w;
    }
    keys[w] = x;
    w + 1
}
