// The test of a table's row over plain numbers (document 01, "Records").
#![tactic(auto)]

ghost use Rattle.std.specs.Prelude.{◌≡◌};
ghost use Rattle.table_rows.specs.Rows.{row_rises};

// Whether a row's source begins at the floor or above, and both ends keep to the highest category.
pub fn row_rises(low: u16, high: u16, target: u16, floor: u32) -> bool
    ensures { result ≡ row_rises floor low high target }
{
    let low = u32::from(low);
    let high = u32::from(high);
    if low < floor {
        return false;
    }
    if high < low {
        return false;
    }
    if 65534 < high {
        return false;
    }
    let end = u32::from(target) + (high - low);
    end <= 65534
}
