// Text in a lent buffer: octets, words, numbers in decimal and in hex, and the lines of the sample program (document 01, "The sample program"). Nothing here reads or writes:
// what is put stands in a lent buffer.
#![tactic(auto)]

ghost use Rattle.std.specs.Prelude.{◌≡◌, [], ◌∷◌, ◌+◌, ◌%◌, ◌≤◌, ◌<◌, length, drop};
ghost use Rattle.text.specs.Put.{Puts, Writes};
ghost use Rattle.text.specs.Text.{decimal, next, hex_digit, hex_of};
ghost use Rattle.text.specs.Line.{shown, forward_line, drop_line, broken_line};

// The most digits of a number in decimal.
const DIGITS: usize = 20;

// A line in a lent buffer. What is put goes behind the place `end`, and an octet that finds no room is left out.
#[derive(Drop)]
pub struct Line<'a> {
    pub octets: &'a mut [u8],
    pub end: usize,
}

impl Line<'_> {
    // One octet.
    pub fn octet(&mut self, x: u8)
        ensures { Writes self.old (x ∷ []) self.new }
    {
        self.end = put_octet(self.octets, self.end, x);
    }

    // The octets of a word.
    pub fn word(&mut self, word: &[u8])
        ensures { Writes self.old word.now self.new }
    {
        self.end = put_word(self.octets, self.end, word);
    }

    // A number in decimal.
    pub fn decimal(&mut self, x: u64)
        ensures { Writes self.old (decimal x) self.new }
    {
        self.end = put_decimal(self.octets, self.end, x);
    }

    // A blank, and a number in decimal.
    pub fn next(&mut self, x: u64)
        ensures { Writes self.old (next x) self.new }
    {
        self.end = put_next(self.octets, self.end, x);
    }

    // The octets in lower-case hex, two digits each.
    pub fn hex(&mut self, octets: &[u8])
        ensures { Writes self.old (hex_of octets.now) self.new }
    {
        self.end = put_hex(self.octets, self.end, octets);
    }

    // A forwarding's line: the count, and that many octets of the leaving area in hex.
    pub fn put_forward(&mut self, count: usize, area: &[u8])
        ensures { Writes self.old (forward_line count area.now) self.new }
    {
        self.word(b"FORWARD");
        self.next(count as u64);
        self.first(count, area);
        self.octet(b'\n');
    }

    // A blank, and the first `count` octets in hex, or as many as there are; nothing for a count of 0.
    fn first(&mut self, count: usize, area: &[u8])
        ensures { Writes self.old (shown count area.now) self.new }
    {
        if count == 0 {
            return;
        }
        self.octet(b' ');
        self.hex(&area[..count.min(area.len())]);
    }

    // A refusal's line: number, type, code and pointer.
    pub fn put_drop(&mut self, number: u8, kind: u8, code: u8, pointer: u8)
        ensures { Writes self.old (drop_line number kind code pointer) self.new }
    {
        self.word(b"DROP");
        self.next(u64::from(number));
        self.next(u64::from(kind));
        self.next(u64::from(code));
        self.next(u64::from(pointer));
        self.octet(b'\n');
    }

    // The line of a record that is cut short.
    pub fn put_broken(&mut self)
        ensures { Writes self.old broken_line self.new }
    {
        self.word(b"BROKEN\n");
    }
}

// What a line's methods do, with the place as a number of its own: a place that lies in a line is loaded and stored again at each octet.

// One octet at place n where there is room, and the place behind it.
fn put_octet(out: &mut [u8], n: usize, x: u8) -> usize
    ensures { Puts out.old n (x ∷ []) out.new result }
{
    if n < out.len() {
        out[n] = x;
        return n + 1;
    }
    n
}

// The octets of a word.
fn put_word(out: &mut [u8], n: usize, word: &[u8]) -> usize
    ensures { Puts out.old n word.now out.new result }
{
    let mut k = n;
    for x in word {
        k = put_octet(out, k, *x);
    }
    k
}

// A number in decimal.
fn put_decimal(out: &mut [u8], n: usize, x: u64) -> usize
    ensures { Puts out.old n (decimal x) out.new result }
{
    let mut digits = [0u8; DIGITS];
    let from = spell(x, &mut digits);
    put_word(out, n, &digits[from..])
}

// A blank, and a number in decimal.
fn put_next(out: &mut [u8], n: usize, x: u64) -> usize
    ensures { Puts out.old n (next x) out.new result }
{
    let k = put_octet(out, n, b' ');
    put_decimal(out, k, x)
}

// The octets in lower-case hex.
fn put_hex(out: &mut [u8], n: usize, octets: &[u8]) -> usize
    ensures { Puts out.old n (hex_of octets.now) out.new result }
{
    let mut k = n;
    for x in octets {
        k = put_pair(out, k, *x);
    }
    k
}

// An octet as two hex digits.
fn put_pair(out: &mut [u8], n: usize, x: u8) -> usize
    ensures { Puts out.old n (hex_of (x ∷ [])) out.new result }
{
    let k = put_octet(out, n, hex_digit(x / 16));
    put_octet(out, k, hex_digit(x % 16))
}

// The digit of a number below 16.
fn hex_digit(x: u8) -> u8
    requires { x ≤ 15 }
    ensures { result ≡ hex_digit x }
{
    if x < 10 {
        return x + b'0';
    }
    x - 10 + b'a'
}

// Puts a number's digits at the end of 20 octets, and answers where they begin.
fn spell(x: u64, digits: &mut [u8]) -> usize
    requires { length digits.old ≡ 20 }
    ensures { (result < 20) × (drop result digits.new ≡ decimal x) }
{
    let mut i = DIGITS - 1;
    digits[i] = digit(x);
    let mut rest = x / 10;
    while rest > 0 {
        i -= 1;
        digits[i] = digit(rest);
        rest /= 10;
    }
    i
}

// A number's last digit.
fn digit(x: u64) -> u8
    ensures { result ≡ 48 + x % 10 }
{
    (x % 10) as u8 + b'0'
}
