// The sample program (document 01, "The sample program"; document 02, wish 1): records of an options area from standard input, each forwarded or dropped in
// one line by the first two ports and the first table of the file `gateway.bin`.
#![tactic(auto)]

ghost use Rattle.std.specs.Prelude.{◌≡◌, ◌+◌, ◌≤◌, IfSome, length};
ghost use Rattle.text.specs.Theorems.{Whole};
ghost use Rattle.table.specs.Table.{lent};
ghost use Rattle.table_choose.specs.Tables.{lent_found};
ghost use Rattle.sample.specs.Sample.{area_line};
ghost use Rattle.sample.specs.Choice.{sample_from, chosen_of, chosen_by};

use decision::Facts;
use file_load::{ROOM, load_file};
use file_read::{ACCEPTED, FileRead};
use file_set::Set;
use forward::forward;
use port::Port;
use std::io::{Stdin, Stdout};
use std::ops::ControlFlow;
use stream::{Place, begin, feed, finish, go_on, say_broken, spare};
use table::{Renumbering, Table, levels_of};
use table_choose::{Found, Tables, first_table};
use table_levels::Levels;
use text::Line;

// How much of the input is held at a time: some 1,600 records of the longest area that can pass.
const INPUT: usize = 65536;
// How much of the output waits at a time.
const OUTPUT: usize = 65536;
// The most octets of a line (crate `text`, `Longest`): there is room for so many before one is put.
const LINE: usize = 110;

// What the program chose to run with: two ports, a table, and where its rows lie in the room.
#[derive(Clone, Copy)]
struct Choice {
    arriving: Port,
    leaving: Port,
    item: Renumbering,
    at: usize,
    end: usize,
}

// What the program runs with: two ports, and a table with its rows and level pairs.
#[derive(Clone, Copy)]
struct Gateway<'a> {
    arriving: Port,
    leaving: Port,
    table: Table,
    rows: &'a [u16],
    levels: Levels,
}

fn with_table(arriving: Port, leaving: Port, found: Found) -> Choice
    ensures { result ≡ chosen_by arriving leaving found }
{
    let item = found.item;
    Choice {
        arriving,
        leaving,
        item,
        at: found.at,
        end: found.end,
    }
}

// Chooses the first two ports and the first table of what was read; where there is no table, one that says nothing of the arriving port's domain. Nothing where the file is not accepted,
// or has under two ports.
fn choose(verdict: u8, set: Set, rows: &[u16]) -> Option<Choice>
    ensures chosen { chosen_of result rows.now ≡ sample_from verdict set rows.now }
    ensures in_bounds { IfSome result (λ c. (c.at ≤ c.end) × (c.end ≤ length rows.now)) }
{
    if verdict != ACCEPTED {
        return None;
    }
    if set.portcount < 2 {
        return None;
    }
    let arriving = set.ports[0];
    let leaving = set.ports[1];
    let kept = set.tables;
    let tables = Tables {
        count: set.tablecount,
        items: kept,
    };
    if set.tablecount == 0 {
        let none = first_table(tables, rows, arriving.domain, leaving.domain);
        return Some(with_table(arriving, leaving, none));
    }
    let first = set.tables[0];
    let table = first.table;
    let found = first_table(tables, rows, table.from, table.to);
    Some(with_table(arriving, leaving, found))
}

// The line of one area.
fn answer(gateway: &Gateway, area: &[u8], line: &mut Line)
    requires { line.old.end + 110 ≤ length line.old.octets.now }
    ensures same { line.new.octets.ghost_name ≡ line.old.octets.ghost_name }
    ensures whole { Whole line.old.octets.now line.old.end (area_line gateway.now.arriving gateway.now.leaving (lent gateway.now.table gateway.now.rows.now) gateway.now.levels area.now) line.new.octets.now line.new.end }
{
    let mut space = [0u8; 40];
    let facts = Facts {
        error: false,
        group: false,
        link: false,
        fragment: false,
        source: false,
    };
    let d = forward(
        gateway.arriving,
        gateway.leaving,
        gateway.table,
        gateway.rows,
        gateway.levels,
        facts,
        area,
        &mut space,
    );
    if d.number != 0 {
        line.put_drop(d.number, d.kind, d.code, d.pointer);
    } else {
        line.put_forward(d.count, &space);
    }
}

// The line of a record of `size` octets in the window, or BROKEN where it is cut short. What waits is written where a line might not fit.
fn answer_record(
    stdout: Stdout,
    gateway: &Gateway,
    input: &[u8],
    out: &mut [u8],
    place: Place,
    size: usize,
) -> ControlFlow<usize, Place>
    requires in_bounds { 110 ≤ length out.old }
    requires at_le_end { (place.window.at ≤ place.window.end) × (place.window.end ≤ length input.now) × (1 ≤ size) }
{
    let ready = spare(stdout, out, place, LINE)?;
    let mut line = Line {
        octets: out,
        end: ready.waiting,
    };
    let whole = place.window;
    let at = whole.at;
    let end = whole.end;
    if end - at < size {
        line.put_broken();
        return ControlFlow::Break(line.end);
    }
    let next = at + size;
    answer(gateway, &input[at + 1..next], &mut line);
    go_on(next, end, line.end)
}

// One record; nothing where the input ends. What waits is written before the input is read, and a write that fails ends the program.
fn turn(
    stdin: Stdin,
    stdout: Stdout,
    gateway: &Gateway,
    input: &mut [u8],
    out: &mut [u8],
    place: Place,
) -> ControlFlow<usize, Place>
    requires { 110 ≤ length out.old }
{
    let led = feed(stdin, stdout, input, out, place, 1)?;
    let begun = led.window;
    let first = begun.at;
    if begun.end <= first {
        return ControlFlow::Break(led.waiting);
    }
    let size = record_size(input[first]);
    let fed = feed(stdin, stdout, input, out, led, size)?;
    answer_record(stdout, gateway, input, out, fed, size)
}

// How many octets a record has, with the one that leads it.
fn record_size(n: u8) -> usize
    ensures { (1 ≤ result) × (result ≤ 256) }
{
    usize::from(n) + 1
}

// Answers every record of the input.
fn run(stdin: Stdin, stdout: Stdout, gateway: &Gateway) {
    let mut input = [0u8; INPUT];
    let mut out = [0u8; OUTPUT];
    let mut last = ControlFlow::Continue(begin());
    // a proved loop has to end, and nothing says that the input does: no run has so many records
    for _ in 0..u64::MAX {
        let ControlFlow::Continue(place) = last else {
            break;
        };
        last = turn(stdin, stdout, gateway, &mut input, &mut out, place);
    }
    finish(stdout, &out, last);
}

// Runs with what the file says, if it says enough.
fn run_file(stdin: Stdin, stdout: Stdout, file: FileRead, rows: &[u16]) {
    let Some(chosen) = choose(file.verdict, file.set, rows) else {
        say_broken(stdout);
        return;
    };
    let gateway = Gateway {
        arriving: chosen.arriving,
        leaving: chosen.leaving,
        table: chosen.item.table,
        rows: &rows[chosen.at..chosen.end],
        levels: levels_of(chosen.item),
    };
    run(stdin, stdout, &gateway);
}

fn main(rt: HostRuntime) {
    let mut rows = [0u16; ROOM];
    let file = load_file(&rt, &mut rows);
    let used = file.used;
    run_file(rt.stdin(), rt.stdout(), file, &rows[..used]);
}
