// The usual kind of port: told by fixed places, so that between two such ports nothing of a port is copied.
#![tactic(auto)]

ghost use Rattle.std.specs.Prelude.{◌≡◌, ◌&&◌, drop};
ghost use Rattle.label.specs.Runs.{unused};
ghost use Rattle.label.specs.Label.{is_zero};
ghost use Rattle.basic.specs.Settings.{way_zero};
ghost use Rattle.option.specs.Permitted.{some_of};
ghost use Rattle.port_usual.specs.Usual.{looks_usual, usual_port};
ghost use Rattle.port_usual.specs.Stages.{range_usual};

use basic::{MAX_FIELDS, Way};
use label::{Label, Run, one_formed, word};
use option::Spellings;
use port::Port;

// Whether the port is as most are: a label is required, no option 130 is read, it faces labelled hosts, it is not strict, and its range goes from no
// categories to those of at most one run.
pub fn looks_usual(port: Port) -> bool
    ensures { result ≡ looks_usual port }
{
    let low = port.lowest.count;
    let high = port.highest.count;
    port.required
        & (!port.unlabelled & (!port.strict & (!port.basic.on & ((low == 0) & (high <= 1)))))
}

// Whether it is, and is sound. Every place is fixed and no test ends it early, so that nothing is copied and all of the port is read at once;
// a function with a loop that it calls has no other caller, so that it is put into it.
pub fn is_usual(port: Port) -> bool
    ensures { result ≡ usual_port port }
{
    let formed = range_usual(&port.lowest, &port.highest, port.domain);
    let zero = labels_zero(&port.assigned, &port.default);
    let off = ways_zero(port.basic.receiving, port.basic.sending);
    let some = some_of(port.spellings);
    formed & zero & off & port.required & !port.unlabelled & !port.strict & !port.basic.on & some
}

// Whether two labels are a sound range of the domain, which is not 0, from no categories to those of at most one run.
fn range_usual(lowest: &Label, highest: &Label, domain: u32) -> bool
    ensures { result ≡ range_usual lowest.now highest.now domain }
{
    let none = lowest.runs[0];
    let run = highest.runs[0];
    let rest = runs_unused::<1>(&lowest.runs, &highest.runs);
    let owned = (domain != 0) & ((lowest.domain == domain) & (highest.domain == domain));
    let low = (lowest.count == 0) & (word(none) == 0);
    let high = one_formed(highest.count, run.low, run.high);
    rest & owned & (lowest.level <= highest.level) & low & high
}

// Whether every place from the first that is looked at is zero in both lists.
fn runs_unused<const FIRST: usize>(x: &[Run; Label::MAX_RUNS], y: &[Run; Label::MAX_RUNS]) -> bool
    ensures { result ≡ (unused (drop FIRST x.now) && unused (drop FIRST y.now)) }
{
    let mut rest: u32 = 0;
    for i in FIRST..Label::MAX_RUNS {
        rest = rest | word(x[i]) | word(y[i]);
    }
    rest == 0
}

// Whether both labels are all zero.
fn labels_zero(x: &Label, y: &Label) -> bool
    ensures { result ≡ (is_zero x.now && is_zero y.now) }
{
    let rest = runs_unused::<0>(&x.runs, &y.runs);
    let heads = x.domain | x.level as u32 | y.domain | y.level as u32;
    let counts = x.count | y.count;
    (heads == 0) & (counts == 0) & rest
}

// Whether nothing is set either way.
fn ways_zero(receiving: Way, sending: Way) -> bool
    ensures { result ≡ (way_zero receiving && way_zero sending) }
{
    let mut any: u16 = 0;
    for i in 0..MAX_FIELDS {
        any = any | receiving.flags[i] | sending.flags[i];
    }
    let levels = receiving.lowest | receiving.highest | sending.lowest | sending.highest;
    let counts = receiving.count | sending.count;
    (levels == 0) & (counts == 0) & (any == 0)
}

// Whether any spelling is permitted, with no test that ends it early.
fn some_of(spellings: Spellings) -> bool
    ensures { result ≡ some_of spellings }
{
    spellings.shortest | (spellings.ten | (spellings.numbers | spellings.pairs))
}
