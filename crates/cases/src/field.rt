// What is left of a case: its numbers are taken one after the other. None is taken where the case is cut off or a number breaks its limit.
ghost use Rattle.std.specs.Prelude.{◌≤◌, IfSome};

use case_lines::LONGEST;

#[derive(Drop)]
pub struct Case<'a> {
    rest: &'a [u8],
}

// A lent output: its length and the octet that it is filled with.
#[derive(Clone, Copy)]
pub struct Output {
    pub room: usize,
    pub fill: u8,
}

impl<'a> Case<'a> {
    pub fn new(octets: &'a [u8]) -> Case<'a> {
        Case { rest: octets }
    }

    // How many octets are left.
    pub fn len(&self) -> usize {
        self.rest.len()
    }

    // The end of the case; none where octets are left over.
    pub fn end(&self) -> Option<()> {
        if self.rest.is_empty() { Some(()) } else { None }
    }

    // One octet.
    pub fn octet(&mut self) -> Option<u8> {
        let (first, rest) = self.rest.split_first()?;
        self.rest = rest;
        Some(*first)
    }

    // Two octets.
    pub fn short(&mut self) -> Option<u16> {
        Some(u16::from_be_bytes([self.octet()?, self.octet()?]))
    }

    // Four octets.
    pub fn word(&mut self) -> Option<u32> {
        let high = self.short()?;
        let low = self.short()?;
        Some(u32::from(high) << 16 | u32::from(low))
    }

    // One octet that is 0 or 1.
    pub fn flag(&mut self) -> Option<bool> {
        match self.octet()? {
            0 => Some(false),
            1 => Some(true),
            _ => None,
        }
    }

    // One octet that says how many entries of a list are stored, up to a limit.
    pub fn stored(&mut self, limit: usize) -> Option<usize>
        ensures { IfSome result (λ n. n ≤ limit) }
    {
        let count = self.octet()?;
        up_to(usize::from(count), limit)
    }

    // Two octets that say the same.
    pub fn limited(&mut self, limit: usize) -> Option<usize>
        ensures { IfSome result (λ n. n ≤ limit) }
    {
        let count = self.short()?;
        up_to(usize::from(count), limit)
    }

    // The next `size` octets.
    pub fn part(&mut self, size: usize) -> Option<&'a [u8]> {
        let (part, rest) = self.rest.split_at_checked(size)?;
        self.rest = rest;
        Some(part)
    }

    // One octet n, and the next n octets.
    pub fn octets(&mut self) -> Option<&'a [u8]> {
        let size = self.octet()?;
        self.part(usize::from(size))
    }

    // Two octets n, and the next n octets.
    pub fn long_octets(&mut self) -> Option<&'a [u8]> {
        let size = self.short()?;
        self.part(usize::from(size))
    }

    // The length of an output, at most 512, and what it is filled with.
    pub fn output(&mut self) -> Option<Output>
        ensures { IfSome result (λ o. o.room ≤ 512) }
    {
        let room = self.limited(LONGEST)?;
        let fill = self.octet()?;
        Some(Output { room, fill })
    }
}

// A number up to a limit.
fn up_to(n: usize, limit: usize) -> Option<usize>
    ensures { IfSome result (λ m. m ≤ limit) }
{
    if limit < n { None } else { Some(n) }
}
