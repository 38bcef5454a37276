// Ports of the gateway and the host's range, and what makes each sound (document 01, "Records").
#![tactic(auto)]

ghost use Rattle.std.specs.Prelude.{◌≡◌, true};
ghost use Rattle.label.specs.Label.{well_formed, in_range};
ghost use Rattle.port.specs.Port.{plain_port, is_plain, port_sound, host_sound, range_sound, default_lies};

use basic::{Basic, basic_sound};
use label::Label;
use option::Spellings;

#[derive(Clone, Copy)]
pub struct Port {
    pub domain: u32,
    pub lowest: Label,
    pub highest: Label,
    pub required: bool,
    pub assigned: Label,
    // what passes of option 130 (Wish 3)
    pub basic: Basic,
    // which spellings the far side can read (Wish 5)
    pub spellings: Spellings,
    // whether it faces unlabelled hosts, and the label that all of them have (Wish 6)
    pub unlabelled: bool,
    pub default: Label,
    // whether slack spellings are stopped (Wish 10)
    pub strict: bool,
}

#[derive(Clone, Copy)]
pub struct Host {
    pub lowest: Label,
    pub highest: Label,
}

impl Port {
    // A port as document 01 has it.
    pub fn plain(
        domain: u32,
        lowest: Label,
        highest: Label,
        required: bool,
        assigned: Label,
    ) -> Port
        ensures { result ≡ plain_port domain lowest highest required assigned }
    {
        Port {
            domain: domain,
            lowest: lowest,
            highest: highest,
            required: required,
            assigned: assigned,
            basic: Basic::off(),
            spellings: Spellings::usual(),
            unlabelled: false,
            default: Label::empty(0, 0),
            strict: false,
        }
    }

    // Whether the port is as document 01 has it: its record says it whole.
    pub fn is_plain(self) -> bool
        ensures { result ≡ is_plain self }
    {
        let spellings = self.spellings;
        if !spellings.is_usual() {
            return false;
        }
        if self.unlabelled | self.strict {
            return false;
        }
        let default = self.default;
        if !default.is_zero() {
            return false;
        }
        let basic = self.basic;
        basic.is_off()
    }
}

// Whether the port is sound.
pub fn port_sound(port: Port) -> bool
    ensures { result ≡ port_sound port }
{
    if port.domain == 0 {
        return false;
    }
    let spellings = port.spellings;
    if !spellings.some() {
        return false;
    }
    if !range_sound(port.lowest, port.highest, port.domain) {
        return false;
    }
    if !basic_sound(port.basic) {
        return false;
    }
    if !default_sound(port) {
        return false;
    }
    let assigned = port.assigned;
    if port.required {
        let zero = assigned.is_zero();
        return zero;
    }
    let lowest = port.lowest;
    let highest = port.highest;
    lies_within(assigned, lowest, highest)
}

// Whether the default label lies in the range where the port faces unlabelled hosts, and is all zero where it does not. The range is taken where it
// is asked, so that it is copied for such ports alone.
fn default_sound(port: Port) -> bool
    requires lowest_value { well_formed port.lowest ≡ true }
    requires highest_value { well_formed port.highest ≡ true }
    ensures { result ≡ default_lies port.unlabelled port.lowest port.highest port.default }
{
    let label = port.default;
    if port.unlabelled {
        let lowest = port.lowest;
        let highest = port.highest;
        return lies_within(label, lowest, highest);
    }
    let zero = label.is_zero();
    zero
}

// Whether the host's range is sound, for a port of the domain.
pub fn host_sound(host: Host, domain: u32) -> bool
    ensures { result ≡ host_sound host domain }
{
    let lowest = host.lowest;
    let highest = host.highest;
    range_sound(lowest, highest, domain)
}

// Whether both labels are well formed and of the domain, the lowest at most the highest.
fn range_sound(lowest: Label, highest: Label, domain: u32) -> bool
    ensures { result ≡ range_sound lowest highest domain }
{
    if lowest.domain != domain {
        return false;
    }
    if highest.domain != domain {
        return false;
    }
    if !lowest.well_formed() {
        return false;
    }
    if !highest.well_formed() {
        return false;
    }
    lowest.at_most(highest)
}

// Whether the label lies in the range of two labels that are well formed: its own form is looked at once.
fn lies_within(label: Label, lowest: Label, highest: Label) -> bool
    requires lowest_value { well_formed lowest ≡ true }
    requires highest_value { well_formed highest ≡ true }
    ensures { result ≡ in_range lowest highest label }
{
    if !label.well_formed() {
        return false;
    }
    if !lowest.at_most(label) {
        return false;
    }
    label.at_most(highest)
}
