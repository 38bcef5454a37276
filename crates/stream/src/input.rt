// Input: a buffer of which a window holds the octets that were read and are not yet used.
ghost use Rattle.std.specs.Prelude.{◌≡◌, ◌++◌, ◌+◌, ◌-◌, ◌≤◌, length, take, drop};
ghost use Rattle.stream.specs.Input.{lying, Holds, HoldsPiece};

use std::io::{Read, Stdin};

// The unused octets of a buffer: from `at` up to `end`, where the next ones go.
#[derive(Clone, Copy)]
pub struct Window {
    pub at: usize,
    pub end: usize,
}

// The window once it holds n octets, or all that the input still has: what is held goes to the front, and the rest of the buffer is read into.
// A window that does not lie in the buffer counts as empty.
pub fn hold(stdin: Stdin, input: &mut [u8], window: Window, n: usize) -> Window
    ensures { Holds input.old window n input.new result }
{
    let w = lie(input.len(), window);
    let at = w.at;
    let end = w.end;
    if n <= end - at {
        return w;
    }
    input.copy_within(at..end, 0);
    let last = read_until(stdin, input, end - at, n);
    Window { at: 0, end: last }
}

// The window; an empty one where it does not lie in a buffer of `room` octets.
#[tactic(auto, unfolding(crate::specs::Input::lying))]
pub fn lie(room: usize, window: Window) -> Window
    ensures value { result ≡ lying room window }
    ensures at_le_end { (result.at ≤ result.end) × (result.end ≤ room) }
{
    if window.end < window.at || room < window.end {
        return Window { at: 0, end: 0 };
    }
    window
}

// Reads on from `held` until n octets are there, the input ends or the buffer is full, and answers how many are there.
fn read_until(stdin: Stdin, input: &mut [u8], held: usize, n: usize) -> usize
    requires { held ≤ length input.old }
    ensures lower_bound { (held ≤ result) × (result ≤ length input.new) }
    ensures input_len_unchanged { (length input.new ≡ length input.old) × (take held input.new ≡ take held input.old) }
{
    let mut end = held;
    while end < n {
        let got = read_once(stdin, &mut input[end..]);
        if got == 0 {
            return end;
        }
        end += got;
    }
    end
}

// One read into the places that are lent: how many octets came, 0 at the end of the input and where the read fails.
fn read_once(mut stdin: Stdin, places: &mut [u8]) -> usize
    ensures { result ≤ length places.old }
{
    stdin.read(places).unwrap_or(0)
}

// One piece of at most `most` octets behind what is held, which goes to the front: the window of the octets that came. It is empty at the end of the input, and where there is no
// room. A window that does not lie in the buffer counts as empty.
pub fn hold_piece(stdin: Stdin, input: &mut [u8], window: Window, most: usize) -> Window
    ensures { HoldsPiece input.old window most input.new result }
{
    let w = lie(input.len(), window);
    let at = w.at;
    let end = w.end;
    input.copy_within(at..end, 0);
    let held = end - at;
    let to = held + most.min(input.len() - held);
    let got = read_once(stdin, &mut input[held..to]);
    Window {
        at: held,
        end: held + got,
    }
}
