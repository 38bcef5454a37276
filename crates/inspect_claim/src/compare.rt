// The first place at which what the box says differs from what is claimed: 0 to 3 the decision, 4 the leaving length, 5 on the leaving area's octets.
ghost use Rattle.std.specs.Prelude.{◌≡◌, ◌&&◌, ◌≤◌, ◌==◌, not, ltb, eqb, length, get_or, take, drop};
ghost use Rattle.std.specs.List.{position, zip};
ghost use Rattle.inspect_claim.specs.Compare.{said_of, find_from, finding_of};

use decision::Decision;

// The octets before the leaving area: number, type, code, pointer and leaving length.
const HEAD: usize = 5;

// Holds a decision and the leaving area against a claim's octets: number, type, code, pointer, leaving length and leaving area. The answer is the first place that differs; None where all
// agree.
pub fn compare_claim(d: Decision, leaving: &[u8], claimed: &[u8]) -> Option<usize>
    ensures { result ≡ finding_of (said_of d leaving.now) claimed.now }
{
    let head = [
        d.number as usize,
        d.kind as usize,
        d.code as usize,
        d.pointer as usize,
        d.count,
    ];
    for (k, x) in head.iter().enumerate() {
        if !says(claimed, k, *x) {
            return Some(k);
        }
    }
    compare_area(d.count, leaving, claimed)
}

// The leaving area, all of it where it is shorter than its count.
fn compare_area(count: usize, leaving: &[u8], claimed: &[u8]) -> Option<usize>
    requires { 5 ≤ length claimed.now }
    ensures { result ≡ find_from 5 (take count leaving.now) (drop 5 claimed.now) }
{
    let area = &claimed[HEAD..];
    if leaving.len() < count {
        return compare_octets(leaving, area);
    }
    compare_octets(&leaving[..count], area)
}

// The claim has this number at a place.
fn says(claimed: &[u8], k: usize, x: usize) -> bool
    ensures { result ≡ (ltb k (length claimed.now) && eqb x (get_or claimed.now k 0)) }
{
    if claimed.len() <= k {
        return false;
    }
    x == claimed[k] as usize
}

// The octets of the leaving area against those that are claimed, which stand behind the head.
fn compare_octets(leaving: &[u8], area: &[u8]) -> Option<usize>
    ensures { result ≡ find_from 5 leaving.now area.now }
{
    match find_unequal(leaving, area) {
        Some(i) => Some(HEAD + i),
        None if leaving.len() == area.len() => None,
        None => Some(HEAD + leaving.len().min(area.len())),
    }
}

// The first place, of those that both have, at which the octets differ.
fn find_unequal(leaving: &[u8], area: &[u8]) -> Option<usize>
    ensures { result ≡ position (λ p. not (p.0 == p.1)) (zip leaving.now area.now) }
{
    leaving.iter().zip(area).position(|(x, y)| *x != *y)
}
