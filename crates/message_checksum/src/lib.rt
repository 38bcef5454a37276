// The Internet checksum (RFC 792, RFC 1071): the one's complement sum of 16-bit words.
#![tactic(auto)]

ghost use Rattle.std.specs.Prelude.{◌≡◌, ◌+◌, ◌*◌, ◌≤◌, ◌<◌, length};
ghost use Rattle.message_checksum.specs.Checksum.{ones_from, words_in, checksum_of};
ghost use Rattle.message_checksum.specs.Stages.{folded};

// How many octets are summed before the carries are brought back: their words and one more fit into 32 bits. It is even.
const BLOCK: usize = 65536;

// Adds the words of the octets to a sum; after an odd number of octets one octet of zeros is padded.
pub fn add_octets(sum: u16, octets: &[u8]) -> u16
    ensures { result ≡ ones_from sum (words_in octets.now) }
{
    let (blocks, rest) = octets.as_chunks::<BLOCK>();
    let mut s = sum;
    for block in blocks {
        s = add_block(s, block);
    }
    add_block(s, rest)
}

// The checksum of octets whose checksum field is zero.
pub fn make_checksum(octets: &[u8]) -> u16
    ensures { result ≡ checksum_of octets.now }
{
    65535 - add_octets(0, octets)
}

// Adds the words of one block to a sum: all carries wait above the 16 bits, and are brought back at the end.
fn add_block(sum: u16, octets: &[u8]) -> u16
    requires { length octets.now ≤ 65536 }
    ensures { result ≡ ones_from sum (words_in octets.now) }
{
    let (pairs, last) = octets.as_chunks::<2>();
    let mut s = u32::from(sum);
    for pair in pairs {
        s = s + word(pair[0], pair[1]);
    }
    match last.first() {
        Some(octet) => fold(s + word(*octet, 0)),
        None => fold(s),
    }
}

// The carries brought back: what is left when 65535 is taken away as often as it leaves more than nothing.
fn fold(s: u32) -> u16
    ensures { result ≡ folded s }
{
    if s == 0 {
        return 0;
    }
    (1 + (s - 1) % 65535) as u16
}

// The word of two octets, the higher first.
fn word(high: u8, low: u8) -> u32
    ensures { (result ≡ high * 256 + low) × (result ≤ 65535) }
{
    u32::from(u16::from_be_bytes([high, low]))
}
