// The inspector (document 02, Wish 14): recorded cases from standard input, each held against what the box decides by the file `gateway.bin`; a line for each.
#![tactic(auto)]

ghost use Rattle.std.specs.Prelude.{◌≡◌, ◌≤◌, length};
ghost use Rattle.stream.specs.Input.{held};
ghost use Rattle.stream.specs.Place.{window_of};
ghost use Rattle.inspect_split.specs.Records.{whole_of};
ghost use Rattle.inspect.specs.Turn.{Ends, Turns};

use file_load::{ROOM, load_file};
use file_read::{ACCEPTED, FileRead};
use file_set::Set;
use inspect_line::inspect_held;
use std::io::{Stdin, Stdout};
use std::ops::ControlFlow;
use stream::{Place, begin, finish, flush, go_on, hold_piece, say_broken};
use text::Line;

// How much is read at a time.
const PIECE: usize = 4096;
// What is held, at most 65,536 octets (crate `inspect_split`, `Bounds`), and a piece behind it.
const INPUT: usize = 69632;
// The lines of the records that end in a piece: at most 2,048 of at most 11 octets (crate `inspect_line`, `Room`).
const OUTPUT: usize = 22528;

// The end of the input with so many octets left: BROKEN where it lies within a record.
fn end_input(out: &mut [u8], left: usize) -> ControlFlow<usize, Place>
    requires { length out.old ≡ 22528 }
    ensures { (Ends left out.new result) × (length out.new ≡ 22528) }
{
    if left == 0 {
        return ControlFlow::Break(0);
    }
    let mut line = Line {
        octets: out,
        end: 0,
    };
    line.put_broken();
    ControlFlow::Break(line.end)
}

// One turn: writes what waits, reads a piece behind what is held, and puts the lines of all records that are whole by now.
fn turn(
    stdin: Stdin,
    stdout: Stdout,
    set: Set,
    rows: &[u16],
    input: &mut [u8],
    out: &mut [u8],
    place: Place,
) -> ControlFlow<usize, Place>
    requires input_len { (length input.old ≡ 69632) × (length out.old ≡ 22528) }
    requires window_value { whole_of (held input.old place.window) ≡ 0 }
    ensures { Turns set rows.now input.old place input.new out.new result }
{
    let sent = flush(stdout, out, place)?;
    let window = sent.window;
    let piece = hold_piece(stdin, input, window, PIECE);
    let end = piece.end;
    if end <= piece.at {
        return end_input(out, end);
    }
    let mut lines = Line {
        octets: out,
        end: 0,
    };
    let used = inspect_held(set, rows, &input[..end], &mut lines);
    go_on(used, end, lines.end)
}

// Reads and answers until the input ends.
fn run(stdin: Stdin, stdout: Stdout, set: Set, rows: &[u16]) {
    let mut input = [0u8; INPUT];
    let mut out = [0u8; OUTPUT];
    let mut last = ControlFlow::Continue(begin());
    // a proved loop has to end, and nothing says that the input does: no run has so many pieces
    for _ in 0..u64::MAX {
        let ControlFlow::Continue(place) = last else {
            break;
        };
        last = turn(stdin, stdout, set, rows, &mut input, &mut out, place);
    }
    finish(stdout, &out, last);
}

// Runs with what the file says; a missing or refused one is one BROKEN line, and nothing is read.
fn run_file(stdin: Stdin, stdout: Stdout, file: FileRead, rows: &[u16]) {
    if file.verdict != ACCEPTED {
        say_broken(stdout);
        return;
    }
    run(stdin, stdout, file.set, rows);
}

fn main(rt: HostRuntime) {
    let mut rows = [0u16; ROOM];
    let file = load_file(&rt, &mut rows);
    let used = file.used;
    run_file(rt.stdin(), rt.stdout(), file, &rows[..used]);
}
