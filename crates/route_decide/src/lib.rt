// A box of many ports, chosen by destination (document 02, Wish 7): the longest matching route says which port a datagram leaves by, and what is decided then is the
// two-port decision for that pair, with the first table for its domains.
#![tactic(auto)]

ghost use Rattle.std.specs.Prelude.{◌≡◌, length};
ghost use Rattle.forward_rules.specs.Forward.{forward_of, output_of};
ghost use Rattle.route_decide.specs.Routing.{between, routing_of, routed_output};
ghost use Rattle.route_decide.specs.Stages.{routing_for, known_sound, unrouted_of, unrouted_by};

use arrive::{arrive, stopped_by};
use decision::{Decision, Facts, Verdict, conclude, silent, stop};
use forward::forward;
use port::Port;
use route::{choose_route, routes_sound};
use route_ports::{MAX_PORTS, Survey, no_port, pick_port, survey_ports};
use table::levels_of;
use table_choose::{Tables, first_table, tables_sound};

// Decides what becomes of a datagram that arrives at a port of the list, by its destination, and writes its leaving area. The rows of all
// tables are lent as one list of numbers, three a row; routes as numbers, four a route: prefix, prefix length, port number, domain.
pub fn decide(
    ports: &[Port],
    tables: Tables,
    rows: &[u16],
    routes: &[u32],
    arriving: usize,
    destination: u32,
    facts: Facts,
    area: &[u8],
    out: &mut [u8],
) -> Decision
    ensures { (result ≡ routing_of (routing_for ports.now tables rows.now routes.now arriving destination facts area.now (length out.old))) × (out.new ≡ routed_output (routing_for ports.now tables rows.now routes.now arriving destination facts area.now (length out.old)) out.old) }
{
    let known = survey_ports(ports);
    if !set_sound(known, tables, rows, routes, arriving) {
        return refuse_unrouted(no_port(), facts, area, out.len());
    }
    let a = pick_port(ports, arriving);
    match choose_route(routes, destination) {
        None => refuse_unrouted(a, facts, area, out.len()),
        Some(route) => {
            let l = pick_port(ports, route.port as usize);
            forward_between(a, l, tables, rows, facts, area, out)
        }
    }
}

// Whether the set is sound.
fn set_sound(known: Survey, tables: Tables, rows: &[u16], routes: &[u32], arriving: usize) -> bool
    ensures { result ≡ known_sound known tables rows.now routes.now arriving }
{
    if !known.sound {
        return false;
    }
    if !tables_sound(tables, rows) {
        return false;
    }
    let n = known.count;
    if n <= arriving {
        return false;
    }
    if MAX_PORTS < n {
        return false;
    }
    let domains = known.domains;
    routes_sound(routes, &domains[0..n])
}

// The two-port decision, with the first table for the pair of domains.
fn forward_between(
    a: Port,
    l: Port,
    tables: Tables,
    rows: &[u16],
    facts: Facts,
    area: &[u8],
    out: &mut [u8],
) -> Decision
    ensures { (result ≡ forward_of (between a l tables rows.now facts area.now (length out.old))) × (out.new ≡ output_of (between a l tables rows.now facts area.now (length out.old)) out.old) }
{
    let found = first_table(tables, rows, a.domain, l.domain);
    let item = found.item;
    let at = found.at;
    let end = found.end;
    forward(
        a,
        l,
        item.table,
        &rows[at..end],
        levels_of(item),
        facts,
        area,
        out,
    )
}

// Without a route: the checks of the arriving port, and then 22. A box whose set is unsound answers as one whose arriving port is.
fn refuse_unrouted(a: Port, facts: Facts, area: &[u8], room: usize) -> Decision
    ensures { result ≡ unrouted_of a facts area.now room }
{
    let mut keys = [0u32; 120];
    let arrived = arrive(a, area, 9, &mut keys);
    let verdict = find_no_route(arrived, room);
    conclude(verdict, 0, facts, 0, &keys)
}

// Check 1 of the output comes before what was found on arrival, 22 after it.
fn find_no_route(arrived: Verdict, room: usize) -> Verdict
    ensures { result ≡ unrouted_by arrived room }
{
    if stopped_by(arrived, 1) {
        return arrived;
    }
    if room < 40 {
        return silent(1);
    }
    if arrived.is_ok() {
        return stop(22, 3, 0, 0);
    }
    arrived
}
