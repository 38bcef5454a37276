// An index of the routes (document 02, Wish 7), made once for many datagrams: the addresses at which the chosen port can change, in order, and behind them the port from each on. The
// port of an address is then found by halves, whatever the number of routes.
#![tactic(auto)]

ghost use Rattle.std.specs.Prelude.{◌≡◌, ◌∷◌, ◌++◌, map, ◌+◌, ◌-◌, ◌*◌, ◌/◌, ◌^◌, ◌≤◌, ◌<◌, leb, ltb, length, take, drop, get_or};
ghost use Rattle.lists_search.specs.Halves.{halved};
ghost use Rattle.route.specs.Route.{routes_of};
ghost use Rattle.route_index.specs.Index.{port_number, port_at, first_address, behind_address, edges_of, edge_count, indexed, found_in};
ghost use Rattle.route_index.specs.Stages.{code_port, better_code, Rising, Below, Within, Painted};

use lists_sort::sort_keys;
use route::{Route, choose_route};

// The number that stands for no port.
pub const NO_PORT: u32 = 4294967295;

// Writes the index of the routes at the head of the lent list, and answers how many addresses it has, one more than two for each route. A list of under twice as many places stays as it
// was, and the answer is 0.
pub fn index_routes(routes: &[u32], index: &mut [u32]) -> usize
    ensures { (result ≡ edge_count (routes_of routes.now) (length index.old)) × (index.new ≡ indexed (routes_of routes.now) index.old) }
{
    let n = routes.len() / 4 * 2 + 1;
    if index.len() / 2 < n {
        return 0;
    }
    put_edges(routes, index);
    sort_keys(index, n);
    let (addresses, behind) = index.split_at_mut(n);
    let ports = &mut behind[..n];
    if routes.len() <= 1024 {
        paint_ports(routes, addresses, ports);
        return n;
    }
    put_ports(routes, addresses, ports);
    n
}

// Address 0, and for each route its first address and the one behind its last.
fn put_edges(routes: &[u32], index: &mut [u32])
    requires { length routes.now / 4 * 2 + 1 ≤ length index.old }
    ensures { index.new ≡ (0 ∷ edges_of (routes_of routes.now)) ++ drop (length (0 ∷ edges_of (routes_of routes.now))) index.old }
{
    index[0] = 0;
    for i in 0..routes.len() / 4 {
        let prefix = routes[4 * i];
        let length = routes[4 * i + 1];
        index[2 * i + 1] = first_address(prefix, length);
        index[2 * i + 2] = behind_address(prefix, length);
    }
}

// How many addresses begin with the same first bits, so many as the length says.
fn block(length: u32) -> u64
    ensures { (result ≡ 2 ^ (32 - length)) × (0 < result) × (result ≤ 4294967296) }
{
    if 32 <= length {
        return 1;
    }
    let cut = 32 - (length as u64);
    1u64 << cut
}

// The first address of a route.
fn first_address(prefix: u32, length: u32) -> u32
    ensures { result ≡ first_address prefix length }
{
    let size = block(length);
    let whole = prefix as u64;
    let first = whole / size * size;
    first as u32
}

// The address behind its last: behind the highest address it is 0 again.
fn behind_address(prefix: u32, length: u32) -> u32
    ensures { result ≡ behind_address prefix length }
{
    let size = block(length);
    let whole = prefix as u64;
    let first = whole / size * size;
    ((first + size) % 4294967296) as u32
}

// For each address the port that it goes to.
fn put_ports(routes: &[u32], addresses: &[u32], ports: &mut [u32])
    requires { length ports.old ≡ length addresses.now }
    ensures { ports.new ≡ map (port_at (routes_of routes.now)) addresses.now }
{
    for (i, address) in addresses.iter().enumerate() {
        ports[i] = port_number(choose_route(routes, *address));
    }
}

// The same, faster, of a list that may be sound: route by route, at the addresses of each, which lie side by side.
fn paint_ports(routes: &[u32], addresses: &[u32], ports: &mut [u32])
    requires { (length ports.old ≡ length addresses.now) × (length routes.now ≤ 1024) × Rising addresses.now (length addresses.now) }
    ensures { ports.new ≡ map (port_at (routes_of routes.now)) addresses.now }
{
    // no address has a route so far
    ports.fill(0);
    paint_routes(routes, addresses, ports);
    name_ports(routes, ports);
}

// Each route in its turn.
fn paint_routes(routes: &[u32], addresses: &[u32], ports: &mut [u32])
    requires { (length routes.now ≤ 1024) × Rising addresses.now (length addresses.now) × Painted routes.now addresses.now ports.old 0 }
    ensures { Painted routes.now addresses.now ports.new (length routes.now / 4 * 4) }
{
    for i in 0..routes.len() / 4 {
        paint_route(routes, 4 * i, addresses, ports);
    }
}

// One route more, at its addresses.
fn paint_route(routes: &[u32], at: usize, addresses: &[u32], ports: &mut [u32])
    requires { (length routes.now ≤ 1024) × (at + 4 ≤ length routes.now) × (at ≡ at / 4 * 4) × Rising addresses.now (length addresses.now) × Painted routes.now addresses.now ports.old at }
    ensures { Painted routes.now addresses.now ports.new (at + 4) }
{
    let length = routes[at + 1];
    let first = first_address(routes[at], length) as u64;
    let size = block(length);
    let low = count_below(addresses, first);
    let high = count_below(addresses, first + size);
    paint_places(routes, at, &mut ports[low..high]);
}

// How many of the numbers, which rise, are below another, by halves.
fn count_below(addresses: &[u32], x: u64) -> usize
    requires { Rising addresses.now (length addresses.now) }
    ensures { Below addresses.now (length addresses.now) x result }
{
    addresses.partition_point(|edge| (*edge as u64) < x)
}

// The route at these places, where none is so far or a shorter one.
fn paint_places(routes: &[u32], at: usize, places: &mut [u32])
    requires { (length routes.now ≤ 1024) × (at + 4 ≤ length routes.now) × Within at places.old }
    ensures { places.new ≡ map (better_code routes.now at) places.old }
{
    for place in places.iter_mut() {
        *place = better_code(routes, at, *place);
    }
}

fn better_code(routes: &[u32], at: usize, code: u32) -> u32
    requires { (length routes.now ≤ 1024) × (at + 4 ≤ length routes.now) × (code * 4 ≤ at) }
    ensures { result ≡ better_code routes.now at code }
{
    let own = (at / 4 + 1) as u32;
    if code == 0 {
        return own;
    }
    let place = ((code - 1) * 4 + 1) as usize;
    if routes[place] < routes[at + 1] {
        return own;
    }
    code
}

// The numbers of the routes become those of their ports.
fn name_ports(routes: &[u32], ports: &mut [u32])
    requires { (length routes.now ≤ 1024) × Within (length routes.now) ports.old }
    ensures { ports.new ≡ map (code_port routes.now) ports.old }
{
    for port in ports.iter_mut() {
        *port = port_of(routes, *port);
    }
}

fn port_of(routes: &[u32], code: u32) -> u32
    requires { (length routes.now ≤ 1024) × (code * 4 ≤ length routes.now) }
    ensures { result ≡ code_port routes.now code }
{
    if code == 0 {
        return NO_PORT;
    }
    let place = ((code - 1) * 4 + 2) as usize;
    routes[place]
}

fn port_number(chosen: Option<Route>) -> u32
    ensures { result ≡ port_number chosen }
{
    match chosen {
        None => NO_PORT,
        Some(route) => route.port,
    }
}

// The port that an address goes to by an index of n addresses: that of the last of them that is not above it. Of a list of under twice as many places, and where each is above the address, no
// port.
pub fn find_route(index: &[u32], n: usize, address: u32) -> u32
    ensures { result ≡ found_in index.now n address }
{
    if index.len() / 2 < n {
        return NO_PORT;
    }
    let k = find_edge(index, n, address);
    if k == 0 {
        return NO_PORT;
    }
    index[n + (k - 1)]
}

// How many of the first n addresses are not above the address, by halves.
fn find_edge(index: &[u32], n: usize, address: u32) -> usize
    requires { n ≤ length index.now }
    ensures { result ≡ halved n (λ i. leb (get_or index.now i 0) address) 0 n }
{
    let mut low: usize = 0;
    let mut high = n;
    while low < high {
        let middle = low + (high - low) / 2;
        let edge = index[middle];
        if edge <= address {
            low = middle + 1;
        } else {
            high = middle;
        }
    }
    low
}
