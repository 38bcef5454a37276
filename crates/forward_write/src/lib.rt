// Sending (document 01, "The order of checks": 18, and "The leaving area"): whether the options have room, and only a forwarding writes.
#![tactic(auto)]

ghost use Rattle.std.specs.Prelude.{◌≡◌, ℕ, length};
ghost use Rattle.forward_write.specs.Sending.{kept_by, has_room_for, fitted_by, put_count, put_front, area_count, area_written};

use area::AREA_OCTETS;
use area_leaving::{count_kept, write_rest};
use decision::{NETWORK_PROHIBITED, Verdict, barred};
use label::Label;
use option::Spellings;
use option_form::keys_length;
use option_write::write_keys;

// How many octets of other options are kept; none where the datagram is refused.
pub fn kept_by(held: Verdict, area: &[u8]) -> usize
    ensures { result ≡ kept_by held area.now }
{
    match held {
        Err(_) => 0,
        Ok(_) => count_kept(area),
    }
}

// Check 18: a label holds the set, it has a spelling among the permitted ones, and the options have room. Toward unlabelled hosts nothing is spelled, and
// the room is not tested: in an area that passes check 1 the kept options have at most 40 octets.
pub fn fit(
    held: Verdict,
    unlabelled: bool,
    permitted: Spellings,
    kept: usize,
    keys: &[u32],
) -> Verdict
    ensures { (d : ℕ) → result ≡ fitted_by unlabelled permitted d held kept keys.now }
{
    let passed = held?;
    let n = passed.count;
    if Label::MAX_RUNS < n {
        return barred(18, NETWORK_PROHIBITED);
    }
    if unlabelled {
        return Ok(passed);
    }
    let m = n.min(keys.len());
    let size = keys_length(&keys[..m], permitted);
    if !has_room(size, kept) {
        return barred(18, NETWORK_PROHIBITED);
    }
    Ok(passed)
}

// Whether there is an option of this size, and 40 octets hold it and the kept ones.
fn has_room(size: usize, kept: usize) -> bool
    ensures { result ≡ has_room_for size kept }
{
    if size == 0 {
        return false;
    }
    if AREA_OCTETS < size {
        return false;
    }
    kept <= AREA_OCTETS - size
}

// Writes the leaving area of a forwarding, and answers its count; a refusal writes nothing.
pub fn write_area(
    verdict: Verdict,
    unlabelled: bool,
    domain: u32,
    permitted: Spellings,
    kept: usize,
    area: &[u8],
    keys: &[u32],
    out: &mut [u8],
) -> usize
    ensures value { result ≡ area_count verdict unlabelled permitted domain kept area.now keys.now out.old }
    ensures out_after { out.new ≡ area_written verdict unlabelled permitted domain kept area.now keys.now out.old }
{
    match verdict {
        Err(_) => 0,
        Ok(passed) => {
            let n = passed.count.min(keys.len());
            let size = put_option(
                unlabelled,
                &keys[..n],
                permitted,
                domain,
                passed.level,
                &mut out[..],
            );
            write_rest(area, size, kept, &mut out[..])
        }
    }
}

// Writes the option to the front of the output and returns its length; nothing toward unlabelled hosts.
fn put_option(
    unlabelled: bool,
    keys: &[u32],
    permitted: Spellings,
    domain: u32,
    level: u8,
    out: &mut [u8],
) -> usize
    ensures value { result ≡ put_count unlabelled permitted domain level keys.now (length out.old) }
    ensures out_after { out.new ≡ put_front unlabelled permitted domain level keys.now out.old }
{
    if unlabelled {
        return 0;
    }
    write_keys(keys, permitted, domain, level, out)
}
