// Routes (document 02, Wish 7): the longest matching prefix, and what makes a list of routes sound. A list of routes is lent as numbers, four a route:
// prefix, prefix length, port number, domain.
#![tactic(auto)]

ghost use Rattle.std.specs.Prelude.{◌≡◌, true, ◌&&◌, ◌+◌, ◌≤◌, ◌-◌, ◌^◌, length, take};
ghost use Rattle.lists_sort.specs.Order.{sort_keys};
ghost use Rattle.route.specs.Route.{routes_of, matches, preferred, longest, port_listed, domain_agrees, route_sound, every, prefixes_differ, routes_sound};
ghost use Rattle.route.specs.Stages.{route_at, prefix_sound, bare_route, prefix_key, among, keys_of, climbs, Gathered};

use lists_sort::sort_keys;

// A prefix, how many of its first bits count, and the port and domain that it leads to.
#[derive(Clone, Copy)]
pub struct Route {
    pub prefix: u32,
    pub length: u32,
    pub port: u32,
    pub domain: u32,
}

// The longest route that matches the address, where one does.
pub fn choose_route(routes: &[u32], address: u32) -> Option<Route>
    ensures { result ≡ longest address (routes_of routes.now) }
{
    let mut best = None;
    for numbers in routes.as_chunks::<4>().0 {
        best = prefer(best, read_route(numbers), address);
    }
    best
}

// The route that four numbers say.
fn read_route(numbers: &[u32; 4]) -> Route
    ensures { result ≡ route_at numbers.now 0 }
{
    Route {
        prefix: numbers[0],
        length: numbers[1],
        port: numbers[2],
        domain: numbers[3],
    }
}

// The route, where it matches and is longer than the best so far.
fn prefer(best: Option<Route>, r: Route, address: u32) -> Option<Route>
    ensures { result ≡ preferred address best r }
{
    if !route_matches(r, address) {
        return best;
    }
    match best {
        None => Some(r),
        Some(b) => {
            if b.length < r.length {
                return Some(r);
            }
            best
        }
    }
}

// Whether the first bits of the address are the route's.
fn route_matches(r: Route, address: u32) -> bool
    ensures { result ≡ matches r address }
{
    let prefix = r.prefix as u64;
    let length = r.length;
    let whole = address as u64;
    if 32 <= length {
        return prefix == whole;
    }
    let cut = 32 - (length as u64);
    prefix >> cut == whole >> cut
}

// Whether the routes are sound, for ports of these domains.
pub fn routes_sound(routes: &[u32], domains: &[u32]) -> bool
    ensures { result ≡ routes_sound domains.now routes.now }
{
    let n = routes.len();
    if 1024 < n {
        return false;
    }
    if n % 4 != 0 {
        return false;
    }
    if !each_sound(routes, domains) {
        return false;
    }
    prefixes_differ(routes)
}

fn each_sound(routes: &[u32], domains: &[u32]) -> bool
    ensures { result ≡ every (route_sound domains.now) (routes_of routes.now) }
{
    routes
        .as_chunks::<4>()
        .0
        .iter()
        .all(|numbers| route_sound(read_route(numbers), domains))
}

fn route_sound(r: Route, domains: &[u32]) -> bool
    ensures { result ≡ route_sound domains.now r }
{
    if !prefix_sound(r) {
        return false;
    }
    let port = r.port as usize;
    if domains.len() <= port {
        return false;
    }
    r.domain == domains[port]
}

// At most 32 bits count, and every bit past them is 0.
fn prefix_sound(r: Route) -> bool
    ensures { result ≡ prefix_sound r }
{
    let length = r.length;
    if 32 < length {
        return false;
    }
    let cut = 32 - (length as u64);
    (r.prefix as u64) % (1u64 << cut) == 0
}

// Whether no two routes have equal prefixes of one length. Prefix and length are one number, save that hosts' routes stand apart; in order, equal
// numbers are neighbours.
fn prefixes_differ(routes: &[u32]) -> bool
    requires { (length routes.now ≤ 1024) × (every prefix_sound (routes_of routes.now) ≡ true) }
    ensures { result ≡ prefixes_differ (routes_of routes.now) }
{
    if !keys_differ(routes, true) {
        return false;
    }
    keys_differ(routes, false)
}

// Whether the numbers of the hosts' routes, or of the others, differ.
fn keys_differ(routes: &[u32], hosts: bool) -> bool
    requires { (length routes.now ≤ 1024) × (every prefix_sound (routes_of routes.now) ≡ true) }
    ensures { result ≡ climbs 0 (sort_keys (keys_of hosts (routes_of routes.now))) }
{
    let mut keys = [0u32; 256];
    let n = gather_keys(routes, hosts, &mut keys);
    sort_keys(&mut keys, n);
    keys[..n].is_sorted_by(|a, b| *a < *b)
}

fn gather_keys(routes: &[u32], hosts: bool, keys: &mut [u32; 256]) -> usize
    requires { (length routes.now ≤ 1024) × (every prefix_sound (routes_of routes.now) ≡ true) }
    ensures gathered { Gathered (keys_of hosts (routes_of routes.now)) keys.new result }
    ensures upper_bound { result ≤ 256 }
{
    let mut n: usize = 0;
    for numbers in routes.as_chunks::<4>().0 {
        let r = read_route(numbers);
        if is_among(hosts, r) {
            keys[n] = prefix_key(r.prefix, r.length);
            n += 1;
        }
    }
    n
}

fn is_among(hosts: bool, r: Route) -> bool
    ensures { result ≡ among hosts r }
{
    if hosts {
        return r.length == 32;
    }
    r.length != 32
}

fn prefix_key(prefix: u32, length: u32) -> u32
    requires { prefix_sound (bare_route prefix length) ≡ true }
    ensures { result ≡ prefix_key (bare_route prefix length) }
{
    if length == 32 {
        return prefix;
    }
    prefix + marker(length)
}

// The bit behind the last one that counts.
fn marker(length: u32) -> u32
    ensures { result ≡ 2 ^ (31 - length) }
{
    if 31 <= length {
        return 1;
    }
    1u32 << (31 - length)
}
