// Calls of the public functions, read as cases from standard input and answered in one line each.
//
// A case is led by its length in two octets, and its first octet names the entry; every number is big-endian. A case that does not parse is
// answered by BROKEN, and one that is cut off too, after which the program ends.
#![tactic(auto)]

ghost use Rattle.std.specs.Prelude.{◌≤◌, length};

mod box_record;
mod decision_entries;
mod entry;
mod field;
mod file_entries;
mod label_entries;
mod memory_entries;
mod message_entries;
mod option_entries;
mod record;
mod routing_entries;
mod table_entries;

use entry::answer;
use std::io::{Stdin, Stdout};
use std::ops::ControlFlow;
use stream::{Place, begin, feed, finish, go_on, spare};
use text::Line;

// Two octets of length and the longest case that they can lead, and as much again, so that what is moved to the front is less than what is read.
const INPUT: usize = 131072;
// How much of the output waits at a time.
const OUTPUT: usize = 524288;
// More octets than a line has: a case of entry 25 has at most 65,535 calls, each with four octets of the line, and 64 addresses behind them.
const LINE: usize = 263168;

// The line of a case of `size` octets in the window, or BROKEN where it is cut off. What waits is written where a line might not fit.
fn answer_case(
    stdout: Stdout,
    input: &[u8],
    out: &mut [u8],
    place: Place,
    size: usize,
) -> ControlFlow<usize, Place>
    requires { (place.window.at ≤ place.window.end) × (place.window.end ≤ length input.now) × (2 ≤ size) }
{
    let ready = spare(stdout, out, place, LINE)?;
    let mut line = Line {
        octets: out,
        end: ready.waiting,
    };
    let whole = place.window;
    let at = whole.at;
    let end = whole.end;
    if end - at < size {
        line.put_broken();
        return ControlFlow::Break(line.end);
    }
    let next = at + size;
    answer(&input[at + 2..next], &mut line);
    line.octet(b'\n');
    go_on(next, end, line.end)
}

// One case; nothing where the input ends. What waits is written before the input is read, and a write that fails ends the program.
fn turn(
    stdin: Stdin,
    stdout: Stdout,
    input: &mut [u8],
    out: &mut [u8],
    place: Place,
) -> ControlFlow<usize, Place> {
    let led = feed(stdin, stdout, input, out, place, 2)?;
    let size = size_at(input, led);
    if size < 2 {
        return ControlFlow::Break(led.waiting);
    }
    let fed = feed(stdin, stdout, input, out, led, size)?;
    answer_case(stdout, input, out, fed, size)
}

// How many octets the case has that the window begins with: 0 where the input ends, 2 where it ends within the two that lead the case.
fn size_at(input: &[u8], place: Place) -> usize
    requires { (place.window.at ≤ place.window.end) × (place.window.end ≤ length input.now) }
{
    let window = place.window;
    let first = window.at;
    let end = window.end;
    if end <= first {
        return 0;
    }
    let second = first + 1;
    if end <= second {
        return 2;
    }
    case_size(input[first], input[second])
}

// How many octets a case has, with the two that lead it.
fn case_size(high: u8, low: u8) -> usize
    ensures { (2 ≤ result) × (result ≤ 65537) }
{
    usize::from(u16::from_be_bytes([high, low])) + 2
}

fn main(rt: HostRuntime) {
    let stdin = rt.stdin();
    let stdout = rt.stdout();
    let mut input = [0u8; INPUT];
    let mut out = [0u8; OUTPUT];
    let mut last = ControlFlow::Continue(begin());
    // a proved loop has to end, and nothing says that the input does: no run has so many cases
    for _ in 0..u64::MAX {
        let ControlFlow::Continue(place) = last else {
            break;
        };
        last = turn(stdin, stdout, &mut input, &mut out, place);
    }
    finish(stdout, &out, last);
}
