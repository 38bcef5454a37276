// The input of the inspector cut into records (document 02, Wish 14): each is a two-octet length of the rest, then the rest. Nothing here reads or writes.
#![tactic(auto)]

ghost use Rattle.std.specs.Prelude.{◌≡◌, ◌&&◌, ◌+◌, ◌*◌, ◌≤◌, length};
ghost use Rattle.inspect_split.specs.Records.{whole_of};

// The octets that lead a record: the length of the rest, the higher octet first.
pub const LEAD: usize = 2;

// How many octets the first record has, with those that lead it; 0 where it is not all there.
pub fn measure_first(octets: &[u8]) -> usize
    ensures { result ≡ whole_of octets.now }
{
    if octets.len() < LEAD {
        return 0;
    }
    let size = framed_size(octets[0], octets[1]);
    if octets.len() < size {
        return 0;
    }
    size
}

// The whole size of a record, by the two octets that lead it.
fn framed_size(high: u8, low: u8) -> usize
    ensures { result ≡ 2 + (high * 256 + low) }
{
    LEAD + (high as usize * 256 + low as usize)
}
