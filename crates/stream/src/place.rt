// Where a program stands between two records of its input. A step of it goes on from a place, or breaks off with the octets of output that still wait: `?` passes that on.
ghost use Rattle.std.specs.Prelude.{◌≡◌};
ghost use Rattle.stream.specs.declared.place.Place.{Place};
ghost use Rattle.stream.specs.Place.{first_place, going_place, stopped_place, Flushes, Spares, Feeds};

use crate::input::{Window, hold, lie};
use crate::output::send;
use std::io::{Stdin, Stdout};
use std::ops::ControlFlow;
use text::Line;

// The input that is held, and how many octets of output wait.
#[derive(Clone, Copy)]
pub struct Place {
    pub window: Window,
    pub waiting: usize,
}

// Nothing is read and nothing waits.
pub fn begin() -> Place
    ensures { result ≡ first_place }
{
    Place {
        window: Window { at: 0, end: 0 },
        waiting: 0,
    }
}

// A record is answered, and the next one's octets begin at `at`.
pub fn go_on(at: usize, end: usize, waiting: usize) -> ControlFlow<usize, Place>
    ensures { result ≡ going_place (record { at = at; end = end }) waiting }
{
    ControlFlow::Continue(Place {
        window: Window { at, end },
        waiting,
    })
}

// Writes what waits. Where the write fails nothing waits any more and nothing follows, so that what was written stays a prefix of the answer.
pub fn flush(stdout: Stdout, out: &[u8], place: Place) -> ControlFlow<usize, Place>
    ensures { Flushes place result }
{
    let sent = send(stdout, out, place.waiting);
    if !sent {
        return ControlFlow::Break(0);
    }
    ControlFlow::Continue(Place {
        waiting: 0,
        ..place
    })
}

// Writes what waits where nothing follows; written or not, nothing waits any more.
pub fn finish(
    stdout: Stdout,
    out: &[u8],
    last: ControlFlow<usize, Place>,
) -> ControlFlow<usize, Place>
    ensures { result ≡ stopped_place 0 }
{
    let waiting = match last {
        ControlFlow::Continue(place) => place.waiting,
        ControlFlow::Break(waiting) => waiting,
    };
    send(stdout, out, waiting);
    ControlFlow::Break(0)
}

// Sees to room for `room` octets more: where there is less, what waits is written.
pub fn spare(stdout: Stdout, out: &[u8], place: Place, room: usize) -> ControlFlow<usize, Place>
    ensures { Spares out.now place room result }
{
    if out.len() < place.waiting || out.len() - place.waiting < room {
        return flush(stdout, out, place);
    }
    ControlFlow::Continue(place)
}

// Holds n octets of the input, or all that it still has. Before a read, which may block, what waits is written.
pub fn feed(
    stdin: Stdin,
    stdout: Stdout,
    input: &mut [u8],
    out: &[u8],
    place: Place,
    n: usize,
) -> ControlFlow<usize, Place>
    ensures { Feeds input.old place n input.new result }
{
    let window = place.window;
    let w = lie(input.len(), window);
    if n <= w.end - w.at {
        return go_on(w.at, w.end, place.waiting);
    }
    let sent = send(stdout, out, place.waiting);
    if !sent {
        return ControlFlow::Break(0);
    }
    let h = hold(stdin, input, window, n);
    go_on(h.at, h.end, 0)
}

// The one line of a program that has nothing to run with; nothing follows.
pub fn say_broken(stdout: Stdout) -> ControlFlow<usize, Place>
    ensures { result ≡ stopped_place 0 }
{
    let mut out = [0u8; 16];
    let mut line = Line {
        octets: &mut out,
        end: 0,
    };
    line.put_broken();
    let waiting = line.end;
    finish(stdout, &out, ControlFlow::Break(waiting))
}
