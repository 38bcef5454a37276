// The CIPSO option (document 01, "Option and tags"; the draft, section 3): what a valid option is and means is said in specs/.
#![tactic(auto)]

ghost use Rattle.std.specs.Prelude.{◌≡◌};
ghost use Rattle.option.specs.Permitted.{usual, is_usual, some_of};

pub const OPTION_TYPE: u8 = 134;

// The most octets that an option has.
pub const OPTION_OCTETS: usize = 40;

// The types of its tag: the bitmap, the numbers, the pairs (the draft, 3.4.2 to 3.4.4).
pub const BITMAP: u8 = 1;

pub const NUMBERS: u8 = 2;

pub const PAIRS: u8 = 5;

// The places of its fields, counted from its first octet.

pub const LENGTH_AT: usize = 1;

pub const DOMAIN_AT: usize = 2;

pub const TAG_TYPE_AT: usize = 6;

pub const TAG_LENGTH_AT: usize = 7;

pub const ALIGNMENT_AT: usize = 8;

pub const LEVEL_AT: usize = 9;

pub const CATEGORIES_AT: usize = 10;

// The spellings that a port permits (document 02, Wish 5): tag 1 in its shortest form, tag 1 with exactly ten bitmap octets, tag 2, tag 5.
#[derive(Clone, Copy)]
pub struct Spellings {
    pub shortest: bool,
    pub ten: bool,
    pub numbers: bool,
    pub pairs: bool,
}

// A tag and how many octets of categories it has.
#[derive(Clone, Copy)]
pub struct Form {
    pub tag: u8,
    pub size: usize,
}

impl Spellings {
    // Document 01's: tags 1, 2 and 5, each in its shortest form.
    pub fn usual() -> Spellings
        ensures { result ≡ usual }
    {
        Spellings {
            shortest: true,
            ten: false,
            numbers: true,
            pairs: true,
        }
    }

    // Whether they are document 01's.
    pub fn is_usual(self) -> bool
        ensures { result ≡ is_usual self }
    {
        self.shortest && (!self.ten && (self.numbers && self.pairs))
    }

    // Whether any is permitted.
    pub fn some(self) -> bool
        ensures { result ≡ some_of self }
    {
        self.shortest || (self.ten || (self.numbers || self.pairs))
    }
}
