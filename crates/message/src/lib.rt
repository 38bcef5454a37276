// ICMP messages that report a refusal (document 02, Wish 9; RFC 792): written, and read.
#![tactic(auto)]

ghost use Rattle.std.specs.Prelude.{◌≡◌, true, ◌++◌, ◌+◌, ◌*◌, ◌%◌, ◌≤◌, ◌<◌, eqb, length, take, drop};
ghost use Rattle.message_checksum.specs.Checksum.{checksum_of};
ghost use Rattle.message.specs.Message.{message_of, written_of, message_after, parts_of, row_of, is_message, reports, whole_header, check_in, blanked, octets_with};
ghost use Rattle.message.specs.Stages.{whole_quote, three_zeros, check_set};

use lists::copy_list;
use message_checksum::{add_octets, make_checksum};

// What a message is read to: its type (`kind`), code and pointer, and how many octets its header has, which stands from octet 8 on, and its data, which
// stand behind the header.
#[derive(Clone, Copy)]
pub struct Parts {
    pub kind: u8,
    pub code: u8,
    pub pointer: u8,
    pub header: usize,
    pub payload: usize,
}

// The refusal of octets that are no message that reports a refusal.
pub const NO_MESSAGE: u8 = 25;

// The places of a message's fields: type, code, the two octets of the checksum, pointer; three zeros from octet 5 on; the quoted header.
const KIND_AT: usize = 0;

const CODE_AT: usize = 1;

const CHECK_AT: usize = 2;

const CHECK_LOW_AT: usize = 3;

const POINTER_AT: usize = 4;

pub const HEADER_AT: usize = 8;
// How many data octets are quoted at most.
pub const MOST_DATA: usize = 8;

// Writes the message of a report about a header and its data: of the data the first eight octets, or all, if fewer. Answers how many octets it has; where
// the output is too short, nothing is written and the count is 0.
pub fn write_message(
    kind: u8,
    code: u8,
    pointer: u8,
    header: &[u8],
    payload: &[u8],
    out: &mut [u8],
) -> usize
    ensures value { result ≡ written_of (message_of kind code pointer header.now payload.now) (length out.old) }
    ensures out_after { out.new ≡ message_after (message_of kind code pointer header.now payload.now) out.old }
{
    let quoted = payload.len().min(MOST_DATA);
    let size = HEADER_AT + header.len() + quoted;
    if out.len() < size {
        return 0;
    }
    write_blank(
        kind,
        code,
        pointer,
        header,
        &payload[..quoted],
        &mut out[..],
    );
    fill_check(&mut out[..], size);
    size
}

// The message with its checksum field zero.
fn write_blank(kind: u8, code: u8, pointer: u8, header: &[u8], payload: &[u8], out: &mut [u8])
    requires { 8 + length header.now + length payload.now ≤ length out.old }
    ensures { out.new ≡ octets_with 0 kind code pointer header.now payload.now ++ drop (8 + length header.now + length payload.now) out.old }
{
    let front = [kind, code, 0, 0, pointer, 0, 0, 0];
    let behind = HEADER_AT + header.len();
    copy_list(&front, &mut out[..]);
    copy_list(header, &mut out[HEADER_AT..]);
    copy_list(payload, &mut out[behind..]);
}

// The checksum of the first octets, written into its field.
fn fill_check(out: &mut [u8], size: usize)
    requires { (8 ≤ size) × (size ≤ length out.old) }
    ensures { out.new ≡ check_set (checksum_of (take size out.old)) out.old }
{
    let check = make_checksum(&out[..size]);
    let [high, low] = check.to_be_bytes();
    out[CHECK_AT] = high;
    out[CHECK_LOW_AT] = low;
}

// Reads a message that reports a refusal: its parts, or none for any other octets.
pub fn read_message(octets: &[u8]) -> Option<Parts>
    ensures { result ≡ parts_of octets.now }
{
    if !is_message(octets) {
        return None;
    }
    let header = length_by(octets[HEADER_AT]);
    Some(Parts {
        kind: octets[KIND_AT],
        code: octets[CODE_AT],
        pointer: octets[POINTER_AT],
        header,
        payload: octets.len() - HEADER_AT - header,
    })
}

// An answer as a row: 0 and the parts; or 25, and all else 0.
pub fn row_of(read: Option<Parts>) -> (u8, Parts)
    ensures number { result.0 ≡ (row_of read).number }
    ensures report { (result.1.kind ≡ (row_of read).kind) × (result.1.code ≡ (row_of read).code) × (result.1.pointer ≡ (row_of read).pointer) }
    ensures quoted { (result.1.header ≡ (row_of read).header) × (result.1.payload ≡ (row_of read).payload) }
{
    match read {
        Some(parts) => (0, parts),
        None => (
            NO_MESSAGE,
            Parts {
                kind: 0,
                code: 0,
                pointer: 0,
                header: 0,
                payload: 0,
            },
        ),
    }
}

// Whether the header is four times its length field long, which is at least 5.
pub fn whole_header(header: &[u8]) -> bool
    ensures { result ≡ whole_header header.now }
{
    if header.len() < 20 {
        return false;
    }
    let size = length_by(header[0]);
    (20 <= size) & (header.len() == size)
}

// Whether a type and a pointer report a refusal: type 12, or type 3 with pointer 0.
pub fn reports_refusal(kind: u8, pointer: u8) -> bool
    ensures { result ≡ reports kind pointer }
{
    if kind == 12 {
        return true;
    }
    (kind == 3) & (pointer == 0)
}

// Whether the octets are a message that reports a refusal.
fn is_message(octets: &[u8]) -> bool
    ensures { result ≡ is_message octets.now }
{
    if octets.len() < HEADER_AT {
        return false;
    }
    if !reports_refusal(octets[KIND_AT], octets[POINTER_AT]) {
        return false;
    }
    if !right_check(octets) {
        return false;
    }
    if !three_zeros(octets[5], octets[6], octets[7]) {
        return false;
    }
    whole_quote(&octets[HEADER_AT..])
}

// How many octets a header has, by its first octet.
fn length_by(octet: u8) -> usize
    ensures { (result ≡ 4 * (octet % 16)) × (result ≤ 60) }
{
    4 * usize::from(octet % 16)
}

fn three_zeros(a: u8, b: u8, c: u8) -> bool
    ensures { result ≡ three_zeros a b c }
{
    (a == 0) & ((b == 0) & (c == 0))
}

// Whether the checksum is the one that was built: that of the octets with the field taken as zero.
fn right_check(octets: &[u8]) -> bool
    requires { 8 ≤ length octets.now }
    ensures { result ≡ eqb (check_in octets.now) (checksum_of (blanked octets.now)) }
{
    let sum = add_octets(add_octets(0, &octets[..2]), &octets[4..]);
    let check = u16::from_be_bytes([octets[CHECK_AT], octets[CHECK_LOW_AT]]);
    check == 65535 - sum
}

// Whether the octets are a whole header with at most eight data octets behind it.
fn whole_quote(quote: &[u8]) -> bool
    ensures { result ≡ whole_quote quote.now }
{
    let n = quote.len();
    if n < 20 {
        return false;
    }
    let header = length_by(quote[0]);
    if header < 20 {
        return false;
    }
    if n < header {
        return false;
    }
    n - header <= MOST_DATA
}
