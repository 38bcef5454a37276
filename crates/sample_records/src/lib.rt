// The records of the sample program (document 01, "The sample program"): two ports, a table and its level pairs.
#![tactic(auto)]

ghost use Rattle.std.specs.Prelude.{◌≡◌, [], ◌∷◌};
ghost use Rattle.label.specs.Runs.{run};
ghost use Rattle.label.specs.Label.{label_of};
ghost use Rattle.sample_records.specs.Sample as sample;

use label::{Label, Run};
use port::Port;
use table::Table;
use table_levels::Levels;

// The label with the categories from 0 to the highest.
pub fn up_to(domain: u32, level: u8, highest: u16) -> Label
    ensures { result ≡ label_of domain level (run 0 highest ∷ []) }
{
    let none = Run { low: 0, high: 0 };
    let mut runs = [none; 120];
    runs[0] = Run {
        low: 0,
        high: highest,
    };
    Label {
        domain: domain,
        level: level,
        count: 1,
        runs: runs,
    }
}

// The port at which datagrams arrive.
pub fn arriving() -> Port
    ensures { result ≡ sample.arriving }
{
    Port::plain(
        5,
        Label::empty(5, 1),
        up_to(5, 5, 300),
        true,
        Label::empty(0, 0),
    )
}

// The port through which they leave.
pub fn leaving() -> Port
    ensures { result ≡ sample.leaving }
{
    Port::plain(
        9,
        Label::empty(9, 0),
        up_to(9, 255, Label::MAX_CATEGORY),
        true,
        Label::empty(0, 0),
    )
}

// The table, without its rows and its level pairs.
pub fn table() -> Table
    ensures { result ≡ sample.head }
{
    Table {
        from: 5,
        to: 9,
        pairs: 3,
        count: 2,
    }
}

// Its rows, three numbers each.
pub fn rows() -> [u16; 6]
    ensures { result ≡ sample.rows }
{
    [0, 99, 1000, 100, 300, 0]
}

// The level pairs of the table.
pub fn levels() -> Levels
    ensures { result ≡ sample.levels }
{
    let mut levels = [[0u8; 2]; 256];
    levels[0] = [1, 2];
    levels[1] = [3, 4];
    levels[2] = [5, 6];
    levels
}
