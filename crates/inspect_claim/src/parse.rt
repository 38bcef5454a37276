// A recorded case without the two octets of its length: version 1, the arriving and the leaving port's number, the five facts, the arriving area led by its length; the
// claimed number, type, code and pointer, and the leaving area led by its length.
ghost use Rattle.std.specs.Prelude.{◌≡◌, ◌&&◌, ◌+◌, ◌≤◌, Some, None, cond, leb, ltb, eqb, length, get_or};
ghost use Rattle.inspect_claim.specs.Claim.{are_facts, claimed_at, leaving_length, said, facts_in, no_record, recorded_of};

use decision::Facts;

// The largest octet that says a fact: 1 where it holds, 0 where not.
const MAX_FACT: u8 = 1;

// Whether a record parses, and what it says: port numbers, facts, and where its claimed decision begins. The arriving area stands from octet 9 up to there.
#[derive(Clone, Copy)]
pub struct Recorded {
    pub parsed: bool,
    pub arriving: usize,
    pub leaving: usize,
    pub facts: Facts,
    pub claimed: usize,
}

// Reads a record, by a file of so many ports; all zero where it does not parse.
pub fn read_record(octets: &[u8], ports: usize) -> Recorded
    ensures { result ≡ recorded_of ports octets.now }
{
    match read_facts(octets) {
        Some(facts) if is_framed(octets, ports) => Recorded {
            parsed: true,
            arriving: octet_at(octets, 1) as usize,
            leaving: octet_at(octets, 2) as usize,
            facts: facts,
            claimed: claimed_at(octet_at(octets, 8)),
        },
        _ => no_record(),
    }
}

// Whether the version is 1, both ports are in the file, and the fields fill the record exactly.
fn is_framed(octets: &[u8], ports: usize) -> bool
    ensures { result ≡ (eqb (get_or octets.now 0 0) 1 && (ltb (get_or octets.now 1 0) ports && (ltb (get_or octets.now 2 0) ports && eqb (length octets.now) (claimed_at octets.now + 5 + leaving_length octets.now)))) }
{
    let begins = claimed_at(octet_at(octets, 8));
    (octet_at(octets, 0) == 1)
        & (is_listed(octet_at(octets, 1), ports)
            & (is_listed(octet_at(octets, 2), ports)
                & fills(octets.len(), begins, octet_at(octets, begins + 4))))
}

// A port of this number is in a file of so many.
fn is_listed(port: u8, ports: usize) -> bool
    ensures { result ≡ ltb port ports }
{
    (port as usize) < ports
}

// The leaving area ends where the record ends.
fn fills(size: usize, begins: usize, leaving: u8) -> bool
    requires { begins ≤ 264 }
    ensures { result ≡ eqb size (begins + 5 + leaving) }
{
    size == begins + 5 + leaving as usize
}

// The five facts, where each is 0 or 1.
fn read_facts(octets: &[u8]) -> Option<Facts>
    ensures { result ≡ cond (are_facts octets.now) (Some (facts_in octets.now)) None }
{
    let error = fact_at(octets, 3)?;
    let group = fact_at(octets, 4)?;
    let link = fact_at(octets, 5)?;
    let fragment = fact_at(octets, 6)?;
    let source = fact_at(octets, 7)?;
    Some(Facts {
        error: error,
        group: group,
        link: link,
        fragment: fragment,
        source: source,
    })
}

// The fact that the octet at a place says.
fn fact_at(octets: &[u8], i: usize) -> Option<bool>
    ensures { result ≡ cond (leb (get_or octets.now i 0) 1) (Some (said octets.now i)) None }
{
    let x = octet_at(octets, i);
    if x <= MAX_FACT { Some(x != 0) } else { None }
}

// Where the claimed decision begins, by the arriving area's length.
fn claimed_at(area: u8) -> usize
    ensures { (result ≡ 9 + area) × (result ≤ 264) }
{
    9 + area as usize
}

// The octet at a place; 0 past the end.
fn octet_at(octets: &[u8], i: usize) -> u8
    ensures { result ≡ get_or octets.now i 0 }
{
    octets.get(i).copied().unwrap_or(0)
}

fn no_record() -> Recorded
    ensures { result ≡ no_record }
{
    let facts = Facts {
        error: false,
        group: false,
        link: false,
        fragment: false,
        source: false,
    };
    Recorded {
        parsed: false,
        arriving: 0,
        leaving: 0,
        facts: facts,
        claimed: 0,
    }
}
