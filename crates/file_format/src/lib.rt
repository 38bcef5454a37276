// Fields of the house file: numbers of one, two and four octets, the highest octet first.
#![tactic(auto)]

ghost use Rattle.std.specs.Prelude.{◌≡◌, cond, ◌+◌, ◌≤◌, ◌<◌, leb, length, MatchResult, IfOk};
ghost use Rattle.file_format.specs.Format.{Width, Reads, number, one, two, four, digits, Writes, Adds, number_at, got, bad};

// A number of so many octets at a place, and the place after it; or the place to blame.
fn read_number(
    octets: &[u8],
    at: usize,
    width: usize,
    least: u32,
    most: u32,
) -> Result<(u32, usize), usize>
    requires { width ≤ 4 }
    ensures read { MatchResult result (λ p. number_at width least most octets.now at ≡ got p.0 p.1) (λ n. number_at width least most octets.now at ≡ bad n) }
    ensures bound { IfOk result (λ p. p.0 ≤ most) }
{
    if !has_room(octets.len(), at, width) {
        return Err(at);
    }
    let mut value: u32 = 0;
    for octet in &octets[at..at + width] {
        value = value * 256 + u32::from(*octet);
    }
    if value < least || most < value {
        return Err(at);
    }
    Ok((value, at + width))
}

// A number of one octet from `least` to `most`, and the place after it; or the place to blame.
#[tactic(auto, unfolding(crate::specs::Format::read_at))]
pub fn read_octet(octets: &[u8], at: usize, least: u32, most: u32) -> Result<(u32, usize), usize>
    ensures read { Reads (number one least most) octets.now at result }
    ensures bound { IfOk result (λ p. p.0 ≤ most) }
{
    read_number(octets, at, 1, least, most)
}

#[tactic(auto, unfolding(crate::specs::Format::read_at))]
pub fn read_two(octets: &[u8], at: usize, least: u32, most: u32) -> Result<(u32, usize), usize>
    ensures read { Reads (number two least most) octets.now at result }
    ensures bound { IfOk result (λ p. p.0 ≤ most) }
{
    read_number(octets, at, 2, least, most)
}

#[tactic(auto, unfolding(crate::specs::Format::read_at))]
pub fn read_four(octets: &[u8], at: usize, least: u32, most: u32) -> Result<(u32, usize), usize>
    ensures read { Reads (number four least most) octets.now at result }
    ensures bound { IfOk result (λ p. p.0 ≤ most) }
{
    read_number(octets, at, 4, least, most)
}

// Whether so many octets from a place on are there.
pub fn has_room(held: usize, at: usize, size: usize) -> bool
    ensures { result ≡ leb (at + size) held }
{
    at <= held && size <= held - at
}

// An output in a lent buffer. What is put goes behind the place `end`; where there is no room for all of it, nothing is put.
#[derive(Drop)]
pub struct Output<'a> {
    pub octets: &'a mut [u8],
    pub end: usize,
}

impl Output<'_> {
    // A number in so many octets.
    fn number(&mut self, width: usize, value: u32)
        ensures { Adds self.old (digits width value) self.new }
    {
        if !has_room(self.octets.len(), self.end, width) {
            return;
        }
        let mut rest = value;
        for i in (0..width).rev() {
            self.octets[self.end + i] = (rest % 256) as u8;
            rest = rest / 256;
        }
        self.end += width;
    }

    pub fn octet(&mut self, value: u32)
        ensures { Adds self.old (digits 1 value) self.new }
    {
        self.number(1, value)
    }

    pub fn two(&mut self, value: u32)
        ensures { Adds self.old (digits 2 value) self.new }
    {
        self.number(2, value)
    }

    pub fn four(&mut self, value: u32)
        ensures { Adds self.old (digits 4 value) self.new }
    {
        self.number(4, value)
    }
}

// Writes numbers over a list where there is room for all of them, and tells the place after them; else nothing, and the place that was given.
pub fn write_numbers(numbers: &[u16], out: &mut [u16], at: usize) -> usize
    ensures { Writes at numbers.now out.old out.new result }
{
    let n = numbers.len();
    if !has_room(out.len(), at, n) {
        return at;
    }
    out[at..at + n].copy_from_slice(numbers);
    at + n
}

// How many places of an array are in use: its count, and never more than there are.
pub fn count_used(count: usize, places: usize) -> usize
    ensures { (result ≡ cond (leb count places) count places) × (result ≤ places) }
{
    count.min(places)
}
