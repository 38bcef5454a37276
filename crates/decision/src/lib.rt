// What is decided of a datagram, what is decided on the way to it, and when the report of a refusal stays silent (document 01, "The order of checks";
// document 02, Wish 2).
#![tactic(auto)]

ghost use Rattle.std.specs.Prelude.{◌≡◌};
ghost use Rattle.decision.specs.Decision.{silenced};
ghost use Rattle.decision.specs.Verdict.{stopped, going, concluded};
ghost use Rattle.decision.specs.Stages.{reported};

use label::Label;
use label_keys::to_label;

// What is decided: 0 and the label (and, of a forwarding, the count of the leaving area), or a refusal's number with its ICMP type (`kind`),
// code and pointer.
#[derive(Clone, Copy)]
pub struct Decision {
    pub number: u8,
    pub kind: u8,
    pub code: u8,
    pub pointer: u8,
    pub count: usize,
    pub label: Label,
}

// What has passed so far, without the label: the level, and how many keys of a lent list hold the categories.
#[derive(Clone, Copy)]
pub struct Passed {
    pub level: u8,
    pub count: usize,
}

// A refusal: its number, and its ICMP type, code and pointer.
#[derive(Clone, Copy)]
pub struct Refusal {
    pub number: u8,
    pub kind: u8,
    pub code: u8,
    pub pointer: u8,
}

// What is decided so far: what has passed, or the refusal of the first check that applies.
pub type Verdict = Result<Passed, Refusal>;

// What the caller states of a datagram (RFC 1122, section 3.2.2): no error goes out about one of which any of these holds.
#[derive(Clone, Copy)]
pub struct Facts {
    // it is an ICMP error message
    pub error: bool,
    // its destination is broadcast or multicast
    pub group: bool,
    // it came as a link-layer broadcast
    pub link: bool,
    // it is a fragment other than the first
    pub fragment: bool,
    // its source is not one host
    pub source: bool,
}

// The decision of a verdict: the label of the domain with the runs of the first keys, and the count; or the refusal, with count 0 and an
// all-zero label. If a fact silences the datagram, the number of a refusal stays and the report is silent.
pub fn conclude(verdict: Verdict, domain: u32, facts: Facts, count: usize, keys: &[u32]) -> Decision
    ensures { result ≡ concluded verdict domain (silenced facts) count keys.now }
{
    let quiet = is_silenced(facts);
    let (passed, said, owner, n) = match verdict {
        Ok(passed) => (passed, NO_REFUSAL, domain, count),
        Err(refusal) => (NONE_PASSED, report(refusal, quiet), 0, 0),
    };
    // one exit, so that the label is built where it is returned
    let label = to_label(keys, passed.count, owner, passed.level);
    Decision {
        number: said.number,
        kind: said.kind,
        code: said.code,
        pointer: said.pointer,
        count: n,
        label: label,
    }
}

// What a decision says of a refusal where there is none, and what its label is made of where there is one.
const NO_REFUSAL: Refusal = Refusal {
    number: 0,
    kind: 0,
    code: 0,
    pointer: 0,
};

const NONE_PASSED: Passed = Passed { level: 0, count: 0 };

// ICMP types (RFC 792): destination unreachable, and parameter problem.
const UNREACHABLE: u8 = 3;

const PARAMETER_PROBLEM: u8 = 12;

// Codes of "unreachable" (RFC 1812, section 5.2.7.1): the network, and the host, is prohibited by the administration.
pub const NETWORK_PROHIBITED: u8 = 9;

pub const HOST_PROHIBITED: u8 = 10;

// The octets of a header before its options.
pub const HEADER_OCTETS: usize = 20;

// A check that applies, and nothing is reported: type, code and pointer are 0.
pub fn silent(number: u8) -> Verdict
    ensures { result ≡ stopped number 0 0 0 }
{
    stop(number, 0, 0, 0)
}

// A check that blames an octet of the header.
pub fn faulty(number: u8, pointer: u8) -> Verdict
    ensures { result ≡ stopped number 12 0 pointer }
{
    stop(number, PARAMETER_PROBLEM, 0, pointer)
}

// A check that misses an option: its type stands for the pointer.
pub fn missing(number: u8, option: u8) -> Verdict
    ensures { result ≡ stopped number 12 1 option }
{
    stop(number, PARAMETER_PROBLEM, 1, option)
}

// A check that the datagram may not pass, with the code.
pub fn barred(number: u8, code: u8) -> Verdict
    ensures { result ≡ stopped number 3 code 0 }
{
    stop(number, UNREACHABLE, code, 0)
}

// The first check that applies.
pub fn stop(number: u8, kind: u8, code: u8, pointer: u8) -> Verdict
    ensures { result ≡ stopped number kind code pointer }
{
    Err(Refusal {
        number,
        kind,
        code,
        pointer,
    })
}

// No check has applied so far.
pub fn go_on(level: u8, count: usize) -> Verdict
    ensures { result ≡ going level count }
{
    Ok(Passed { level, count })
}

// Whether any of the five facts holds.
fn is_silenced(facts: Facts) -> bool
    ensures { result ≡ silenced facts }
{
    facts.error | (facts.group | (facts.link | (facts.fragment | facts.source)))
}

// What is reported of a refusal: its number alone where the datagram is silenced.
fn report(refusal: Refusal, quiet: bool) -> Refusal
    ensures { result ≡ reported quiet refusal }
{
    if quiet {
        return Refusal {
            number: refusal.number,
            kind: 0,
            code: 0,
            pointer: 0,
        };
    }
    refusal
}
