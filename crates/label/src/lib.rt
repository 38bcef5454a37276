// Labels: a domain, a level and a set of categories, held as ascending runs (document 01, "Labels").
#![tactic(auto)]

ghost use Rattle.std.specs.Prelude.{◌≡◌, ◌&&◌, cond, ◌+◌, ◌*◌, ◌/◌, ◌%◌, ◌^◌, ◌<◌, ◌≤◌, leb, eqb, drop, map, length};
ghost use Rattle.std.specs.List.{list_any};
ghost use Rattle.label.specs.Runs.{run, in_run, spaced, unused, covers, passes, rounds};
ghost use Rattle.label.specs.Label.{used, well_formed, empty_of, member, is_zero, leq, in_range, compared};

// The categories from low to high, both included.
#[derive(Clone, Copy)]
pub struct Run {
    pub low: u16,
    pub high: u16,
}

impl Run {
    // A run as one number, its key, is low · KEY_FACTOR + high.
    pub const KEY_FACTOR: u32 = 65536;
}

#[derive(Clone, Copy)]
pub struct Label {
    pub domain: u32,
    pub level: u8,
    pub count: usize,
    pub runs: [Run; Label::MAX_RUNS],
}

impl Label {
    // The most runs that a label holds.
    pub const MAX_RUNS: usize = 120;
    // How many categories a tag 1 bitmap has room for: 0 to 239.
    pub const BITMAP_CATEGORIES: u16 = 240;
    // The highest category.
    pub const MAX_CATEGORY: u16 = 65534;
    // Where a run could begin, with a gap, behind one that ends at the highest category.
    pub const PAST_LAST: u32 = Label::MAX_CATEGORY as u32 + 2;

    // The label of a domain and level with no categories; for domain 0 the all-zero label, which is ill-formed.
    pub fn empty(domain: u32, level: u8) -> Label
        ensures { result ≡ empty_of domain level }
    {
        let none = Run { low: 0, high: 0 };
        if domain == 0 {
            return Label {
                domain: 0,
                level: 0,
                count: 0,
                runs: [none; Label::MAX_RUNS],
            };
        }
        Label {
            domain: domain,
            level: level,
            count: 0,
            runs: [none; Label::MAX_RUNS],
        }
    }

    // Whether the label is in the one form of its set of categories, with a domain that is not 0.
    #[tactic(auto, unfolding(crate::specs::Label::well_formed, crate::specs::Label::label_typed))]
    pub fn well_formed(self) -> bool
        ensures { result ≡ well_formed self }
    {
        if self.domain == 0 {
            return false;
        }
        let n = self.count;
        if n <= 1 {
            // no place is indexed by a number that is not fixed, so that the label is not copied
            let run = self.runs[0];
            return one_formed(n, run.low, run.high) & all_unused(&self.runs[1..]);
        }
        if Label::MAX_RUNS < n {
            return false;
        }
        runs_formed(self)
    }

    // Whether the label has the category; an ill-formed label has none.
    #[tactic(auto, unfolding(crate::specs::Label::member), using(crate::proofs::Labels::formed_held, crate::proofs::Runs::covers_any))]
    pub fn contains(self, category: u16) -> bool
        ensures { result ≡ member self category }
    {
        if !self.well_formed() {
            return false; // an ill-formed label has no category
        }
        used_covers(self, category)
    }

    // Whether the label is all zero.
    #[tactic(auto, unfolding(crate::specs::Label::is_zero))]
    pub fn is_zero(self) -> bool
        ensures { result ≡ is_zero self }
    {
        self.domain == 0 && self.level == 0 && self.count == 0 && all_unused(&self.runs)
    }

    // Whether the label is at most the other: the same domain, no higher level, and no category that the other lacks.
    // An ill-formed label is at most none, and none is at most it.
    #[tactic(auto, unfolding(crate::specs::Label::leq), using(crate::proofs::Labels::leq_compared))]
    pub fn within(self, other: Label) -> bool
        ensures { result ≡ leq self other }
    {
        if !self.well_formed() {
            return false;
        }
        if !other.well_formed() {
            return false;
        }
        self.at_most(other)
    }

    // The same, without a look at the form of either: for labels that are known to be well formed.
    #[tactic(auto, unfolding(crate::specs::Label::compared))]
    pub fn at_most(self, other: Label) -> bool
        ensures { result ≡ compared self other }
    {
        if self.domain != other.domain {
            return false;
        }
        if other.level < self.level {
            return false;
        }
        if Label::MAX_RUNS < self.count {
            return false;
        }
        if Label::MAX_RUNS < other.count {
            return false;
        }
        if self.count == 0 {
            return true;
        }
        used_within(self, other)
    }

    // Whether the label lies in the range from the lowest to the highest.
    #[tactic(auto, unfolding(crate::specs::Label::in_range))]
    pub fn in_range(self, lowest: Label, highest: Label) -> bool
        ensures { result ≡ in_range lowest highest self }
    {
        if !lowest.within(self) {
            return false;
        }
        self.within(highest)
    }
}

// A run as its key.
impl From<Run> for u32 {
    ghost from_gives = { λ r k. k ≡ r.low * 65536 + r.high };

    fn from(run: Run) -> u32 {
        u32::from(run.low) * Run::KEY_FACTOR + u32::from(run.high)
    }
}

// The run of a key.
impl From<u32> for Run {
    ghost from_gives = { λ k r. r ≡ run (k / 65536) (k % 65536) };

    fn from(key: u32) -> Run {
        Run {
            low: key.low(),
            high: key.high(),
        }
    }
}

// What stands for a run of categories: the run, or its key.
pub trait AsRun: Copy {
    ghost use Rattle.label.specs.declared.Run.{Run};

    ghost as_run: { Self → Run };

    fn low(self) -> u16
        ensures { result ≡ (as_run self).low };

    fn high(self) -> u16
        ensures { result ≡ (as_run self).high };
}

impl AsRun for Run {
    ghost as_run = { λ r. r };

    fn low(self) -> u16 {
        self.low
    }

    fn high(self) -> u16 {
        self.high
    }
}

impl AsRun for u32 {
    ghost as_run = { λ k. run (k / 65536) (k % 65536) };

    fn low(self) -> u16 {
        (self / Run::KEY_FACTOR) as u16
    }

    fn high(self) -> u16 {
        (self % Run::KEY_FACTOR) as u16
    }
}

// What one pass over two lists of runs says, and how many rounds it took. The rounds are there for the contract alone: the caller drops them,
// and with the call inlined the compiler drops their counting.
#[derive(Clone, Copy)]
pub struct Passed {
    pub within: bool,
    // no two lists have so many runs that it does not hold them
    pub rounds: u128,
}

// Whether the runs of the first list pass in those of the second, each a list of runs or of keys: one loop over both, with no loop inside or called.
// Its rounds are counted, and `rounds` is at most as many as both lists have runs together.
pub fn runs_within<A: AsRun, B: AsRun>(a: &[A], b: &[B]) -> Passed
    ensures within { result.within ≡ passes (map A.as_run a.now) (map B.as_run b.now) }
    ensures rounds { result.rounds ≡ rounds (map A.as_run a.now) (map B.as_run b.now) }
    ensures bounded { result.rounds ≤ length a.now + length b.now }
{
    let mut left = a;
    let mut right = b;
    let mut rounds: u128 = 0;
    while let [run, ..] = left {
        rounds += 1;
        let [over, ..] = right else {
            return Passed {
                within: false, // no run of the second list is left
                rounds,
            };
        };
        if over.high() < run.low() {
            right = &right[1..]; // the run of the second list ends before the first's begins
        } else if (over.low() <= run.low()) & (run.high() <= over.high()) {
            left = &left[1..]; // the run of the first list lies in the second's
        } else {
            return Passed {
                within: false,
                rounds,
            };
        }
    }
    Passed {
        within: true,
        rounds,
    }
}

// Whether the first label's runs pass in the second's: a call of its own, so that both labels are copied only where their runs are gone through.
#[tactic(auto, using(crate::proofs::Pass::same_runs))]
fn used_within(a: Label, b: Label) -> bool
    requires count_bound { a.count ≤ 120 }
    requires count_bound_2 { b.count ≤ 120 }
    ensures { result ≡ passes (used a) (used b) }
{
    runs_within(&a.runs[..a.count], &b.runs[..b.count]).within
}

// Whether the used runs are ascending, within the highest category, with a gap between each two, and every other place is zero.
// The highs ascend, so the last alone is held against the highest category. Neither pass ends early: a label is read faster whole than
// with a branch at each place.
#[tactic(auto, using(crate::proofs::Places::rises_spaced))]
fn runs_formed(label: Label) -> bool
    requires { label.count ≤ 120 }
    ensures { result ≡ (spaced 0 (used label) && unused (drop label.count label.runs)) }
{
    let mut good = true;
    let mut floor: u32 = 0;
    for &run in &label.runs[..label.count] {
        // by `as`: behind a call a proof does not see that the sum below has room
        let low = run.low as u32;
        let high = run.high as u32;
        good = good & (floor <= low) & (low <= high);
        floor = high + 2;
    }
    good & (floor <= Label::PAST_LAST) & all_unused(&label.runs[label.count..])
}

// Whether a label has at most one run, and its first place is right for it.
pub fn one_formed(n: usize, low: u16, high: u16) -> bool
    ensures { result ≡ (leb n 1 && cond (eqb n 0) (eqb low 0 && eqb high 0) (leb low high && leb high 65534)) }
{
    ((n == 0) & ((low == 0) & (high == 0)))
        | ((n == 1) & ((low <= high) & (high <= Label::MAX_CATEGORY)))
}

// Whether every place is zero.
fn all_unused(places: &[Run]) -> bool
    ensures { result ≡ unused places.now }
{
    let mut rest: u32 = 0;
    for &run in places {
        rest |= word(run);
    }
    rest == 0
}

// The run's two numbers as they lie in memory: one load.
pub fn word(run: Run) -> u32
    ensures { result ≡ run.low + run.high * 65536 }
{
    u32::from(run.low) + u32::from(run.high) * Run::KEY_FACTOR
}

// Whether some used run covers the category.
fn used_covers(label: Label, category: u16) -> bool
    requires { label.count ≤ 120 }
    ensures { result ≡ list_any (λ r. in_run r category) (used label) }
{
    label.runs[..label.count]
        .iter()
        .any(|run| run.low <= category && category <= run.high)
}
