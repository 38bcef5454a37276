// Records of the house file: each is read at a place and written at a place.
#![tactic(auto)]

ghost use Rattle.std.specs.Prelude.{◌≡◌, true, false, cond, leb, eqb, length, take, IfOk, ◌+◌, ◌*◌, ◌≤◌, ◌<◌};
ghost use Rattle.label.specs.Label.{used, label_of, zero_label, in_range};
ghost use Rattle.basic.specs.Levels.{at_most};
ghost use Rattle.file_format.specs.Format.{ReadsAs, Reads, Fills, many, number, two, flag, alike, same, bit, sum_of, marks_of, digits, octets, Adds, Added};
ghost use Rattle.file_format.specs.Laws.{flat};
ghost use Rattle.file_port.specs.LabelFormat.{run_format, next_floor, unless0, label_format};
ghost use Rattle.file_port.specs.PortFormat.{given_format, way_of, way_format, spellings_made, spelling_marks, spellings_format, plain_format, plain_of, plain_made, later_format, later_of, port_format, no_port};

use basic::{Basic, Way, at_most};
use file_format::{Output, count_used, has_room, read_four, read_octet, read_two};
use label::{Label, Run};
use option::Spellings;
use port::Port;

fn unless_zero(domain: u32, most: u32) -> u32
    ensures { (result ≡ unless0 domain most) × (result ≤ most) }
{
    if domain == 0 {
        return 0;
    }
    most
}

// A run, from `floor` on.
#[tactic(auto, unfolding(file_format::specs::Format::read_at, crate::specs::LabelFormat::run_format))]
fn read_run(octets: &[u8], at: usize, floor: u32) -> Result<(Run, usize), usize>
    ensures read { Reads (run_format floor) octets.now at result }
    ensures bound { IfOk result (λ p. p.0.high ≤ 65534) }
{
    let (low, at) = read_two(octets, at, floor, 65535)?;
    let (high, at) = read_two(octets, at, low, 65534)?;
    let run = Run {
        low: low as u16,
        high: high as u16,
    };
    Ok((run, at))
}

// Runs, into the lent places; the place after them, or the place to blame.
fn fill_runs(octets: &[u8], at: usize, runs: &mut [Run]) -> Result<usize, usize>
    ensures { Fills (many run_format next_floor (length runs.old) 0) octets.now at runs.new result }
{
    let mut place = at;
    let mut floor: u32 = 0;
    for run in runs.iter_mut() {
        match read_run(octets, place, floor) {
            Ok((read, next)) => {
                *run = read;
                floor = u32::from(read.high) + 2;
                place = next;
            }
            Err(blamed) => return Err(blamed),
        }
    }
    Ok(place)
}

// The runs of a label of the domain and level.
fn read_runs(
    octets: &[u8],
    at: usize,
    count: usize,
    domain: u32,
    level: u8,
) -> Result<(Label, usize), usize>
    requires { count ≤ 120 }
    ensures read { ReadsAs (many run_format next_floor count 0) used octets.now at result }
    ensures label { IfOk result (λ p. label_of domain level (used p.0) ≡ p.0) }
{
    let mut runs = [Run { low: 0, high: 0 }; 120];
    let at = fill_runs(octets, at, &mut runs[..count])?;
    let label = Label {
        domain: domain,
        level: level,
        count: count,
        runs: runs,
    };
    Ok((label, at))
}

// Reads the label of a domain, and tells the place after it or the place to blame; of domain 0 there is only the all-zero label.
#[tactic(auto, unfolding(file_format::specs::Format::read_at, crate::specs::LabelFormat::label_format))]
pub fn read_label(octets: &[u8], at: usize, domain: u32) -> Result<(Label, usize), usize>
    ensures { Reads (label_format domain) octets.now at result }
{
    let (same, at) = read_four(octets, at, domain, domain)?;
    let (level, at) = read_octet(octets, at, 0, unless_zero(domain, 255))?;
    let (count, at) = read_octet(octets, at, 0, unless_zero(domain, 120))?;
    read_runs(octets, at, count as usize, same, level as u8)
}

// The first n runs, each its low and its high.
fn write_runs(label: Label, n: usize, out: &mut Output)
    requires { n ≤ 120 }
    ensures { Added out.old (octets (many run_format next_floor n 0) (take n label.runs)) out.new }
{
    for run in &label.runs[..n] {
        out.two(u32::from(run.low));
        out.two(u32::from(run.high));
    }
}

// Writes a label where there is room for all of it; else nothing.
pub fn write_label(label: Label, out: &mut Output)
    ensures { Adds out.old (octets (label_format label.domain) label) out.new }
{
    if !has_room(out.octets.len(), out.end, label_size(label)) {
        return;
    }
    let n = count_used(label.count, 120);
    out.four(label.domain);
    out.octet(u32::from(label.level));
    out.octet(n as u32);
    write_runs(label, n, out);
}

// How many octets a label has.
fn label_size(label: Label) -> usize
    ensures { (result ≡ length (octets (label_format label.domain) label)) × (result ≤ 486) }
{
    6 + count_used(label.count, 120) * 4
}

// The port whose every number is 0.
pub fn empty_port() -> Port
    ensures { result ≡ no_port }
{
    let none = Label::empty(0, 0);
    Port {
        domain: 0,
        lowest: none,
        highest: none,
        required: false,
        assigned: none,
        basic: Basic::off(),
        spellings: Spellings {
            shortest: false,
            ten: false,
            numbers: false,
            pairs: false,
        },
        unlabelled: false,
        default: none,
        strict: false,
    }
}

// The domain of a label that the port may be without: 0 where it has none.
fn given_domain(none: bool, domain: u32) -> u32
    ensures { result ≡ cond none 0 domain }
{
    if none {
        return 0;
    }
    domain
}

// Whether such a label keeps to the range, which is asked where the port has one.
fn given_fits(none: bool, lowest: Label, highest: Label, given: Label) -> bool
    ensures { result ≡ cond none true (in_range lowest highest given) }
{
    if none {
        return true;
    }
    given.in_range(lowest, highest)
}

// A label that the port may be without.
#[tactic(auto, unfolding(file_format::specs::Format::read_at, crate::specs::PortFormat::given_format))]
fn read_given(
    octets: &[u8],
    at: usize,
    none: bool,
    lowest: Label,
    highest: Label,
    domain: u32,
) -> Result<(Label, usize), usize>
    ensures { Reads (given_format none domain lowest highest) octets.now at result }
{
    let (given, next) = read_label(octets, at, given_domain(none, domain))?;
    if !given_fits(none, lowest, highest, given) {
        return Err(at);
    }
    Ok((given, next))
}

// The fields of version 1, in a port that has document 01's values in the later ones.
#[tactic(auto, unfolding(file_format::specs::Format::read_at, crate::specs::PortFormat::plain_format))]
fn read_plain(octets: &[u8], at: usize) -> Result<(Port, usize), usize>
    ensures read { ReadsAs plain_format plain_of octets.now at result }
    ensures made { IfOk result (λ p. p.0 ≡ plain_made (plain_of p.0)) }
{
    let (domain, lowest_at) = read_four(octets, at, 1, 4294967295)?;
    let (lowest, highest_at) = read_label(octets, lowest_at, domain)?;
    let (highest, at) = read_label(octets, highest_at, domain)?;
    if !lowest.within(highest) {
        return Err(highest_at);
    }
    let (flag, at) = read_octet(octets, at, 0, 1)?;
    let required = flag == 1;
    let (assigned, at) = read_given(octets, at, required, lowest, highest, domain)?;
    let port = Port::plain(domain, lowest, highest, required, assigned);
    Ok((port, at))
}

// Whether a level suits, with the lowest before it: 0 where option 130 is switched off.
fn level_fits(on: bool, lowest: u8, level: u8) -> bool
    ensures { result ≡ cond on (at_most lowest level) (eqb level 0) }
{
    if on {
        return at_most(lowest, level);
    }
    level == 0
}

// The most flag fields: none where option 130 is switched off.
fn most_flags(on: bool) -> u32
    ensures { (result ≡ cond on 256 0) × (result ≤ 256) }
{
    if on {
        return 256;
    }
    0
}

// Flag fields, into the lent places; the place after them, or the place to blame.
fn fill_flags(octets: &[u8], at: usize, flags: &mut [u16]) -> Result<usize, usize>
    ensures { Fills (many (alike (number two 0 65535)) same (length flags.old) 0) octets.now at flags.new result }
{
    let mut place = at;
    for flag in flags.iter_mut() {
        let (read, next) = read_two(octets, place, 0, 65535)?;
        *flag = read as u16;
        place = next;
    }
    Ok(place)
}

// The settings for one way, behind their levels.
fn read_flags(
    octets: &[u8],
    at: usize,
    count: usize,
    lowest: u8,
    highest: u8,
) -> Result<(Way, usize), usize>
    requires { count ≤ 256 }
    ensures read { ReadsAs (many (alike (number two 0 65535)) same count 0) (λ w. take w.count w.flags) octets.now at result }
    ensures way { IfOk result (λ p. way_of lowest highest (take p.0.count p.0.flags) ≡ p.0) }
{
    let mut flags = [0u16; 256];
    let at = fill_flags(octets, at, &mut flags[..count])?;
    let way = Way {
        lowest: lowest,
        highest: highest,
        count: count,
        flags: flags,
    };
    Ok((way, at))
}

// The settings of option 130 for one way.
#[tactic(auto, using(crate::proofs::LabelLaws::level_alone), unfolding(file_format::specs::Format::read_at, crate::specs::PortFormat::way_format))]
fn read_way(octets: &[u8], at: usize, on: bool) -> Result<(Way, usize), usize>
    ensures { Reads (way_format on) octets.now at result }
{
    let (low, high_at) = read_octet(octets, at, 0, 255)?;
    let lowest = low as u8;
    if !level_fits(on, lowest, lowest) {
        return Err(at);
    }
    let (high, at) = read_octet(octets, high_at, 0, 255)?;
    let highest = high as u8;
    if !level_fits(on, lowest, highest) {
        return Err(high_at);
    }
    let (count, at) = read_two(octets, at, 0, most_flags(on))?;
    read_flags(octets, at, count as usize, lowest, highest)
}

// The spellings of a sum: 1, 2, 4 and 8.
fn spellings_of(sum: u32) -> Spellings
    ensures { result ≡ spellings_made (marks_of sum) }
{
    Spellings {
        shortest: sum % 2 == 1,
        ten: sum / 2 % 2 == 1,
        numbers: sum / 2 / 2 % 2 == 1,
        pairs: sum / 2 / 2 / 2 % 2 == 1,
    }
}

#[tactic(auto, unfolding(file_format::specs::Format::read_at, crate::specs::PortFormat::spellings_format))]
fn read_spellings(octets: &[u8], at: usize) -> Result<(Spellings, usize), usize>
    ensures { Reads spellings_format octets.now at result }
{
    let (sum, next) = read_octet(octets, at, 0, 15)?;
    let spellings = spellings_of(sum);
    if !spellings.some() {
        return Err(at);
    }
    Ok((spellings, next))
}

// The fields that version 2 adds, put into a port whose others have been read.
#[tactic(auto, unfolding(file_format::specs::Format::read_at, crate::specs::PortFormat::later_format))]
fn read_later(octets: &[u8], at: usize, plain: Port) -> Result<(Port, usize), usize>
    ensures read { ReadsAs (later_format plain.domain plain.lowest plain.highest) later_of octets.now at result }
    ensures plain { IfOk result (λ p. plain_of p.0 ≡ plain_of plain) }
    ensures strict { IfOk result (λ p. p.0.strict ≡ false) }
{
    let (flag, at) = read_octet(octets, at, 0, 1)?;
    let on = flag == 1;
    let (receiving, at) = read_way(octets, at, on)?;
    let (sending, at) = read_way(octets, at, on)?;
    let (spellings, at) = read_spellings(octets, at)?;
    let (face, at) = read_octet(octets, at, 0, 1)?;
    let unlabelled = face == 1;
    let (default, at) = read_given(
        octets,
        at,
        !unlabelled,
        plain.lowest,
        plain.highest,
        plain.domain,
    )?;
    let mut port = plain;
    port.basic = Basic {
        on: on,
        receiving: receiving,
        sending: sending,
    };
    port.spellings = spellings;
    port.unlabelled = unlabelled;
    port.default = default;
    port.strict = false;
    Ok((port, at))
}

// Reads a port of a file of this version, and tells the place after it or the place to blame.
#[tactic(auto, unfolding(file_format::specs::Format::read_at, crate::specs::PortFormat::port_format, crate::specs::PortFormat::first_port, crate::specs::PortFormat::second_port, crate::specs::PortFormat::third_port))]
pub fn read_port(octets: &[u8], at: usize, version: u8) -> Result<(Port, usize), usize>
    ensures { Reads (port_format version) octets.now at result }
{
    let (plain, at) = read_plain(octets, at)?;
    if version < 2 {
        return Ok((plain, at));
    }
    let (mut port, at) = read_later(octets, at, plain)?;
    if version < 3 {
        return Ok((port, at));
    }
    let (flag, at) = read_octet(octets, at, 0, 1)?;
    port.strict = flag == 1;
    Ok((port, at))
}

fn flag_of(b: bool) -> u32
    ensures { (result ≡ bit b) × (result ≤ 1) }
{
    if b {
        return 1;
    }
    0
}

// The sum of permitted spellings.
fn sum_of(spellings: Spellings) -> u32
    ensures { result ≡ sum_of (spelling_marks spellings) }
{
    flag_of(spellings.shortest)
        + flag_of(spellings.ten) * 2
        + flag_of(spellings.numbers) * 4
        + flag_of(spellings.pairs) * 8
}

// The fields of version 1.
fn write_plain(port: Port, out: &mut Output)
    ensures { Added out.old (octets plain_format (plain_of port)) out.new }
{
    let low = port.lowest;
    let high = port.highest;
    let given = port.assigned;
    out.four(port.domain);
    write_label(low, out);
    write_label(high, out);
    out.octet(flag_of(port.required));
    write_label(given, out);
}

// The first n flag fields.
fn write_flags(way: Way, n: usize, out: &mut Output)
    requires { n ≤ 256 }
    ensures { Added out.old (flat (digits 2) (take n way.flags)) out.new }
{
    for flag in &way.flags[..n] {
        out.two(u32::from(*flag));
    }
}

fn write_way(way: Way, out: &mut Output)
    ensures { Added out.old (octets (way_format true) way) out.new }
{
    let n = count_used(way.count, 256);
    out.octet(u32::from(way.lowest));
    out.octet(u32::from(way.highest));
    out.two(n as u32);
    write_flags(way, n, out);
}

// The fields that version 2 adds.
fn write_later(port: Port, out: &mut Output)
    ensures { Added out.old (octets (later_format port.domain port.lowest port.highest) (later_of port)) out.new }
{
    let basic = port.basic;
    let given = port.default;
    out.octet(flag_of(basic.on));
    write_way(basic.receiving, out);
    write_way(basic.sending, out);
    out.octet(sum_of(port.spellings));
    out.octet(flag_of(port.unlabelled));
    write_label(given, out);
}

// Writes a port of version 3 where there is room for all of it; else nothing.
pub fn write_port(port: Port, out: &mut Output)
    ensures { Adds out.old (octets (port_format 3) port) out.new }
{
    if !has_room(out.octets.len(), out.end, port_size(port)) {
        return;
    }
    write_plain(port, out);
    write_later(port, out);
    out.octet(flag_of(port.strict));
}

// How many octets the settings of option 130 have for one way.
fn way_size(way: Way) -> usize
    ensures { (result ≡ length (octets (way_format true) way)) × (result ≤ 516) }
{
    4 + count_used(way.count, 256) * 2
}

// How many octets a port of version 3 has.
pub fn port_size(port: Port) -> usize
    ensures { (result ≡ length (octets (port_format 3) port)) × (result ≤ 2985) }
{
    let low = port.lowest;
    let high = port.highest;
    let given = port.assigned;
    let default = port.default;
    let basic = port.basic;
    let receiving = basic.receiving;
    let sending = basic.sending;
    let plain = 5 + label_size(low) + label_size(high) + label_size(given);
    plain + 4 + way_size(receiving) + way_size(sending) + label_size(default)
}
