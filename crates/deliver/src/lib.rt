// Deliver: checks 1 to 15 and 19 to 21 at a port and a host (document 01, "The order of checks"; document 02, Wish 3).
#![tactic(auto)]

ghost use Rattle.std.specs.Prelude.{◌≡◌};
ghost use Rattle.deliver.specs.Delivery.{delivery_of, deliver_of};
ghost use Rattle.deliver.specs.Stages.{hosted_by};

use arrive::{arrive, held_between, stopped_by};
use decision::{Decision, Facts, HOST_PROHIBITED, Verdict, barred, conclude, silent};
use label::Label;
use port::{Host, Port, host_sound};

// Decides whether a datagram is delivered to the host behind the port.
pub fn deliver(port: Port, host: Host, facts: Facts, area: &[u8]) -> Decision
    ensures { result ≡ deliver_of (delivery_of port host facts area.now) }
{
    let mut keys = [0u32; Label::MAX_RUNS];
    let arrived = arrive(port, area, HOST_PROHIBITED, &mut keys);
    let verdict = reach_host(arrived, host, port.domain, &keys);
    conclude(verdict, port.domain, facts, 0, &keys)
}

// Check 2 of the host, and 15: 1 comes before them, 2 of the host before 3 to 21.
fn reach_host(arrived: Verdict, host: Host, domain: u32, keys: &[u32]) -> Verdict
    ensures { result ≡ hosted_by arrived host domain keys.now }
{
    if stopped_by(arrived, 1) {
        return arrived;
    }
    if !host_sound(host, domain) {
        return silent(2);
    }
    let passed = arrived?;
    if !held_between(passed, host.lowest, host.highest, keys) {
        return barred(15, HOST_PROHIBITED);
    }
    arrived
}
