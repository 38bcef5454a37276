// A label carried to the far domain: its level's partner, and the numbers that the rows of a table give to its categories.
#![tactic(auto)]

ghost use Rattle.std.specs.Prelude.{◌≡◌, true, ◌+◌, ◌≤◌, length};
ghost use Rattle.label_keys.specs.Keys.{key_runs};
ghost use Rattle.table.specs.Table.{lent};
ghost use Rattle.renumber_keys.specs.Carry.{label_runs};
ghost use Rattle.renumber.specs.Renumber.{error_of, number_of, fit_of, row_of, renumbered_of};
ghost use Rattle.renumber.specs.Stages.{runs_renumbered};

use label::Label;
use label_keys::{label_keys, to_label};
use renumber_keys::{CarryError, FEW_RUNS, MOST_RUNS, carry};
use table::{FEW_ROWS, Table, table_sound};
use table_levels::Levels;

// Why a label was not renumbered.
#[derive(Clone, Copy)]
pub enum RenumberError {
    // 2: an unsound table or an ill-formed label
    Unsound,
    // 16: a foreign domain, or the level or a category has no number
    NoNumber,
    // 18: the numbers have over 120 runs
    TooMany,
}

impl From<CarryError> for RenumberError {
    ghost from_gives = { λ e r. r ≡ error_of e };

    fn from(error: CarryError) -> RenumberError {
        match error {
            CarryError::Unsound => RenumberError::Unsound,
            CarryError::NoNumber => RenumberError::NoNumber,
        }
    }
}

// The refusal's number in document 01.
impl From<RenumberError> for u8 {
    ghost from_gives = { λ e n. n ≡ number_of e };

    fn from(error: RenumberError) -> u8 {
        match error {
            RenumberError::Unsound => 2,
            RenumberError::NoNumber => 16,
            RenumberError::TooMany => 18,
        }
    }
}

// The label renumbered by the table, or the first refusal of 2, 16 and 18.
pub fn renumber(
    label: Label,
    table: Table,
    rows: &[u16],
    levels: Levels,
) -> Result<Label, RenumberError>
    ensures { result ≡ renumbered_of label (lent table rows.now) levels }
{
    if !label.well_formed() {
        return Err(RenumberError::Unsound);
    }
    if label.domain != table.from {
        if !table_sound(table, rows, levels) {
            return Err(RenumberError::Unsound);
        }
        return Err(RenumberError::NoNumber);
    }
    let mut keys = [0u32; Label::MAX_RUNS];
    label_keys(label, &mut keys);
    let own = &keys[..label.count];
    if table.count <= FEW_ROWS {
        return renumber_in::<FEW_RUNS>(own, label.level, table, rows, levels);
    }
    renumber_in::<MOST_RUNS>(own, label.level, table, rows, levels)
}

// The runs and the level of a label renumbered, with room for so many runs of the far domain.
fn renumber_in<const RUNS: usize>(
    own: &[u32],
    level: u8,
    table: Table,
    rows: &[u16],
    levels: Levels,
) -> Result<Label, RenumberError>
    requires { (RUNS ≤ 1144) × (label_runs (key_runs own.now) ≡ true) × (table.count ≤ 1024 → 120 + table.count ≤ RUNS) }
    ensures { result ≡ runs_renumbered (key_runs own.now) level (lent table rows.now) levels }
{
    let mut far = [0u32; RUNS];
    renumber_by(own, level, table, rows, levels, &mut far)
}

// The same with that room.
fn renumber_by(
    own: &[u32],
    level: u8,
    table: Table,
    rows: &[u16],
    levels: Levels,
    far: &mut [u32],
) -> Result<Label, RenumberError>
    requires { (label_runs (key_runs own.now) ≡ true) × (table.count ≤ 1024 → 120 + table.count ≤ length far.old) }
    ensures { result ≡ runs_renumbered (key_runs own.now) level (lent table rows.now) levels }
{
    let carried = carry(own, own.len(), level, table, rows, levels, far)?;
    fit_label(&far[..carried.count], table.to, carried.level).ok_or(RenumberError::TooMany)
}

// The ranges as a label, where they are at most 120.
pub fn fit_label(keys: &[u32], domain: u32, level: u8) -> Option<Label>
    ensures { result ≡ fit_of domain level (key_runs keys.now) }
{
    let n = keys.len();
    if Label::MAX_RUNS < n {
        return None;
    }
    Some(to_label(keys, n, domain, level))
}

// An answer as a row: 0 and the label; or a refusal's number and an all-zero label.
pub fn row_of(answer: Result<Label, RenumberError>) -> (u8, Label)
    ensures { (result.0 ≡ (row_of answer).number) × (result.1 ≡ (row_of answer).label) }
{
    match answer {
        Ok(label) => (0, label),
        Err(error) => (u8::from(error), Label::empty(0, 0)),
    }
}
