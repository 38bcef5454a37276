// What tools/bench times: reading, spelling and forward, each done many times in one call, so that neither the call nor the building of the
// records counts. The functions are for measuring alone; those for use are in the crate `bench_exports`. Every answer depends on all results, by
// fixed places of them. The loops of the bitmap and of the house file are in the crate `bench_parts`: a second caller in one library would keep a
// function from being put into its first.
#![tactic(auto)]

ghost use Rattle.std.specs.Prelude.{◌≤◌};

use decision::{Decision, Facts};
use forward::forward;
use label::Label;
use option::Spellings;
use option_read::{Fault, read_option};
use option_spell::spell_label;
use port::Port;
use sample_records::{leaving, levels, table, up_to};
use table::Table;

// How many labels take turns in `time_spell`.
const LABELS: usize = 8;

// Reads the options of `size` octets that stand one after the other, `times` in all, from the first again after the last.
pub fn time_read(octets: &[u8], size: usize, times: usize) -> usize {
    let n = octets.len();
    if n < size {
        return 0;
    }
    let last = n - size;
    let mut at: usize = 0;
    let mut total: usize = 0;
    for _ in 0..times {
        let end = at + size;
        let r = read_option(&octets[at..end]);
        total = mix(total, reading_digest(r));
        at = next_place(at, size, last);
    }
    total
}

// Reads the first 8 options of `size` octets, and spells their labels in turn, `times` in all.
pub fn time_spell(octets: &[u8], size: usize, out: &mut [u8], times: usize) -> usize {
    let labels = read_labels(octets, size);
    let permitted = Spellings::usual();
    let mut total: usize = 0;
    for i in 0..times {
        let label = labels[i % LABELS];
        let (number, count) = match spell_label(label, permitted, &mut out[..]) {
            Ok(count) => (0, count),
            Err(error) => (u8::from(error), 0),
        };
        total = mix(mix(total, usize::from(number)), count);
    }
    total
}

// Forwards the areas of `size` octets that stand one after the other, `times` in all, from the first again after the last. The arriving port of
// domain 5 takes the levels from `lower` to `upper` with the categories 0 to `high`; the leaving port is the sample's, and so is the table but
// for its rows, which are lent: low, high and target of each. The rows of several tables, `width` numbers each, stand one behind the other and take turns.
pub fn time_forward(
    lower: u8,
    upper: u8,
    high: u16,
    rows: &[u16],
    width: usize,
    area: &[u8],
    size: usize,
    out: &mut [u8],
    times: usize,
) -> usize {
    forward_many(
        port_of(lower, upper, high),
        leaving(),
        table_of(width / 3),
        rows,
        width,
        area,
        size,
        out,
        times,
    )
}

fn forward_many(
    arriving: Port,
    leaving: Port,
    table: Table,
    rows: &[u16],
    width: usize,
    area: &[u8],
    size: usize,
    out: &mut [u8],
    times: usize,
) -> usize {
    let n = area.len();
    if n < size {
        return 0;
    }
    let m = rows.len();
    if m < width {
        return 0;
    }
    let levels = levels();
    let facts = Facts {
        error: false,
        group: false,
        link: false,
        fragment: false,
        source: false,
    };
    let last = n - size;
    let last_table = m - width;
    let mut at: usize = 0;
    let mut from: usize = 0;
    let mut total: usize = 0;
    for _ in 0..times {
        let end = at + size;
        let to = from + width;
        let d = forward(
            arriving,
            leaving,
            table,
            &rows[from..to],
            levels,
            facts,
            &area[at..end],
            &mut out[..],
        );
        total = mix(total, decision_digest(d));
        at = next_place(at, size, last);
        from = next_place(from, width, last_table);
    }
    total
}

// The place after this one, or the first again.
fn next_place(at: usize, size: usize, last: usize) -> usize
    requires { at ≤ last }
    ensures { result ≤ last }
{
    if last - at < size {
        return 0;
    }
    at + size
}

fn mix(total: usize, x: usize) -> usize {
    (total % 65536) * 31 + x % 65536
}

fn reading_digest(read: Result<Label, Fault>) -> usize {
    match read {
        Ok(label) => mix(0, label_digest(label)),
        Err(fault) => mix(
            mix(usize::from(fault.number), fault.at),
            label_digest(Label::empty(0, 0)),
        ),
    }
}

fn decision_digest(d: Decision) -> usize {
    let label = d.label;
    mix(
        mix(mix(d.number as usize, d.pointer as usize), d.count),
        label_digest(label),
    )
}

// Domain, level, count and first run: a place that is not fixed would have the label copied.
fn label_digest(label: Label) -> usize {
    let run = label.runs[0];
    let head = mix(
        mix(label.domain as usize, label.level as usize),
        label.count,
    );
    mix(mix(head, run.low as usize), run.high as usize)
}

// The labels of the first 8 options of `size` octets, from the first again after the last; all-zero ones where there is none.
fn read_labels(octets: &[u8], size: usize) -> [Label; 8] {
    let none = Label::empty(0, 0);
    let mut labels = [none; LABELS];
    let n = octets.len();
    if n < size {
        return labels;
    }
    let last = n - size;
    let mut at: usize = 0;
    for label in labels.iter_mut() {
        let end = at + size;
        if let Ok(read) = read_option(&octets[at..end]) {
            *label = read;
        }
        at = next_place(at, size, last);
    }
    labels
}

// A port of domain 5 that requires labels.
fn port_of(lower: u8, upper: u8, high: u16) -> Port {
    Port::plain(
        5,
        Label::empty(5, lower),
        up_to(5, upper, high),
        true,
        Label::empty(0, 0),
    )
}

// The sample's table with other rows.
fn table_of(count: usize) -> Table {
    Table {
        count: count,
        ..table()
    }
}
