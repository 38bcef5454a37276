// A lent list of ports (document 02, Wish 7): one is picked by its number and given by value, and all are looked at once.
#![tactic(auto)]

ghost use Rattle.std.specs.Prelude.{◌≡◌, ◌&&◌};
ghost use Rattle.port.specs.Port.{port_sound};
ghost use Rattle.route_ports.specs.Ports.{unlisted_port, port_at, survey_of};
ghost use Rattle.route_ports.specs.Stages.{start_of, noted_by};

use label::Label;
use port::{Port, port_sound};

// The most ports of a box.
pub const MAX_PORTS: usize = 64;

// What is to be known of all ports: whether they are sound and at most 64, how many there are, and the domain of each.
#[derive(Clone, Copy)]
pub struct Survey {
    pub sound: bool,
    pub count: usize,
    pub domains: [u32; MAX_PORTS],
}

// What stands for a port that is not in the list: it is not sound.
pub fn no_port() -> Port
    ensures { result ≡ unlisted_port }
{
    let zero = Label::empty(0, 0);
    Port::plain(0, zero, zero, false, zero)
}

// The port of the number; past the end one that is not sound.
pub fn pick_port(ports: &[Port], i: usize) -> Port
    ensures { result ≡ port_at ports.now i }
{
    if i < ports.len() {
        return ports[i];
    }
    no_port()
}

// Looks at all ports once.
pub fn survey_ports(ports: &[Port]) -> Survey
    ensures { result ≡ survey_of ports.now }
{
    let mut s = start();
    for p in ports {
        s = note_port(s, *p);
    }
    s
}

// Before the first port.
fn start() -> Survey
    ensures { result ≡ start_of }
{
    Survey {
        sound: true,
        count: 0,
        domains: [0u32; MAX_PORTS],
    }
}

// One port more: nothing is looked at once a port was unsound, and a 65th is one too many.
fn note_port(s: Survey, p: Port) -> Survey
    ensures { result ≡ noted_by s p }
{
    let n = s.count;
    let mut next = s;
    if MAX_PORTS <= n {
        next.sound = false;
        return next;
    }
    next.domains[n] = p.domain;
    next.count = n + 1;
    next.sound = still_sound(s.sound, p);
    next
}

fn still_sound(ok: bool, p: Port) -> bool
    ensures { result ≡ (ok && port_sound p) }
{
    if ok {
        return port_sound(p);
    }
    false
}
