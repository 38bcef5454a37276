// Many datagrams between two ports: records and slots of 64 octets, decided one after another. Two sound ports are checked once for all of them.
//
// A record has 64 octets: the five facts of `Facts` in its order (0 or not), the area's length, two octets that are not read, the area from octet 8 on. The slot of the same
// number has 64 octets: number, type, code, pointer and count, and from octet 24 on the leaving area.
#![tactic(auto)]

ghost use Rattle.std.specs.Prelude.{◌≡◌, true, ◌≤◌, ◌*◌, length};
ghost use Rattle.port.specs.Port.{port_sound};
ghost use Rattle.table.specs.Table.{lent};
ghost use Rattle.forward_batch.specs.Batch.{facts_in, slot_count, with_head, slot_of, batch_of};
ghost use Rattle.forward_batch.specs.Stages.{Slotted, Batched};

use basic::Way;
use decision::{Decision, Facts};
use forward::forward;
use forward_gate::forward_gates;
use gate::{Gate, gate_of};
use label::Label;
use label_keys::label_keys;
use port::{Port, port_sound};
use renumber_keys::MOST_RUNS;
use table::Table;
use table_levels::Levels;

// How many octets a record has, and a slot.
const SLOT: usize = 64;

// Forwards every whole record of `input` that has a slot in `output`, from one port to another by a table. Answers how many.
pub fn forward_batch(
    from: Port,
    to: Port,
    table: Table,
    rows: &[u16],
    levels: Levels,
    input: &[u8],
    output: &mut [u8],
) -> usize
    ensures value { result ≡ slot_count (length input.now) (length output.old) }
    ensures output_after { output.new ≡ batch_of (record { arriving = from; leaving = to; table = lent table rows.now; levels = levels }) (slot_count (length input.now) (length output.old)) input.now output.old }
{
    let n = count_slots(input.len(), output.len());
    if port_sound(from) && port_sound(to) {
        forward_sound(from, to, table, rows, levels, n, input, output);
        return n;
    }
    forward_each(from, to, table, rows, levels, n, input, output);
    n
}

// How many whole records there are, each with its slot.
fn count_slots(input: usize, output: usize) -> usize
    ensures { (result ≡ slot_count input output) × (result * 64 ≤ input) × (result * 64 ≤ output) }
{
    if input < output {
        return input / SLOT;
    }
    output / SLOT
}

// The first n records from one sound port to another: what is asked of the ports is laid out in two gates and lists, and each record is decided by these.
fn forward_sound(
    from: Port,
    to: Port,
    table: Table,
    rows: &[u16],
    levels: Levels,
    n: usize,
    input: &[u8],
    output: &mut [u8],
)
    requires from_value { (port_sound from ≡ true) × (port_sound to ≡ true) }
    requires n_in_bounds { (n * 64 ≤ length input.now) × (n * 64 ≤ length output.old) }
    ensures { output.new ≡ batch_of (record { arriving = from; leaving = to; table = lent table rows.now; levels = levels }) n input.now output.old }
{
    port_places(from);
    port_places(to);
    let mut lows = [0u32; Label::MAX_RUNS];
    let mut highs = [0u32; Label::MAX_RUNS];
    let mut given = [0u32; Label::MAX_RUNS];
    let mut least = [0u32; Label::MAX_RUNS];
    let mut most = [0u32; Label::MAX_RUNS];
    let mut only = [0u32; Label::MAX_RUNS];
    label_keys(from.lowest, &mut lows);
    label_keys(from.highest, &mut highs);
    label_keys(from.assigned, &mut given);
    label_keys(to.lowest, &mut least);
    label_keys(to.highest, &mut most);
    label_keys(to.default, &mut only);
    let a = from.basic;
    let b = a.receiving;
    let receives = b.flags;
    let c = to.basic;
    let d = c.sending;
    let sends = d.flags;
    let near = gate_of(from);
    let beyond = gate_of(to);
    let i = from.lowest.count;
    let j = from.highest.count;
    let k = from.assigned.count;
    let l = b.count;
    let p = to.lowest.count;
    let q = to.highest.count;
    let r = to.default.count;
    let s = d.count;
    forward_gated(
        near,
        &lows[0..i],
        &highs[0..j],
        &given[0..k],
        &receives[0..l],
        beyond,
        &least[0..p],
        &most[0..q],
        &only[0..r],
        &sends[0..s],
        table,
        rows,
        levels,
        n,
        input,
        output,
    );
}

// What the types of a port's fields say of it: how many places its lists have.
fn port_places(port: Port)
    ensures { (length port.assigned.runs ≡ 120) × (length port.default.runs ≡ 120) × (length port.basic.receiving.flags ≡ 256) × (length port.basic.sending.flags ≡ 256) }
{
    let assigned = port.assigned;
    let default = port.default;
    let basic = port.basic;
    let receiving = basic.receiving;
    let sending = basic.sending;
    label_places(assigned);
    label_places(default);
    way_places(receiving);
    way_places(sending);
}

fn label_places(label: Label)
    ensures { length label.runs ≡ 120 }
{}

fn way_places(way: Way)
    ensures { length way.flags ≡ 256 }
{}

// Decides the first n records between two gates; the lists for the labels' keys are made once.
fn forward_gated(
    near: Gate,
    lows: &[u32],
    highs: &[u32],
    given: &[u32],
    receives: &[u16],
    beyond: Gate,
    least: &[u32],
    most: &[u32],
    only: &[u32],
    sends: &[u16],
    table: Table,
    rows: &[u16],
    levels: Levels,
    n: usize,
    input: &[u8],
    output: &mut [u8],
)
    requires { (n * 64 ≤ length input.now) × (n * 64 ≤ length output.old) }
    ensures { Batched near lows.now highs.now given.now receives.now beyond least.now most.now only.now sends.now (lent table rows.now) levels n input.now output.old output.new }
{
    let mut own = [0u32; Label::MAX_RUNS];
    let mut far = [0u32; MOST_RUNS];
    for i in 0..n {
        let at = i * SLOT;
        let end = at + SLOT;
        forward_slot(
            near,
            lows,
            highs,
            given,
            receives,
            beyond,
            least,
            most,
            only,
            sends,
            table,
            rows,
            levels,
            &mut own,
            &mut far,
            &input[at..end],
            &mut output[at..end],
        );
    }
}

// Decides one record between two gates, and fills its slot.
fn forward_slot(
    near: Gate,
    lows: &[u32],
    highs: &[u32],
    given: &[u32],
    receives: &[u16],
    beyond: Gate,
    least: &[u32],
    most: &[u32],
    only: &[u32],
    sends: &[u16],
    table: Table,
    rows: &[u16],
    levels: Levels,
    own: &mut [u32],
    far: &mut [u32],
    datagram: &[u8],
    slot: &mut [u8],
)
    requires in_bounds { (120 ≤ length own.old) × (1144 ≤ length far.old) }
    requires datagram_len { (length datagram.now ≡ 64) × (length slot.old ≡ 64) }
    ensures { Slotted near lows.now highs.now given.now receives.now beyond least.now most.now only.now sends.now (lent table rows.now) levels datagram.now slot.old slot.new × (length slot.new ≡ 64) }
{
    let facts = read_facts(datagram);
    let end = 8 + capped(datagram[5]);
    let d = forward_gates(
        near,
        lows,
        highs,
        given,
        receives,
        beyond,
        least,
        most,
        only,
        sends,
        table,
        rows,
        levels,
        facts,
        &datagram[8..end],
        own,
        far,
        &mut slot[24..],
    );
    put_head(d, slot);
}

// The same from ports of which one is unsound; each decision stands in the slot of its record's number.
fn forward_each(
    arriving: Port,
    leaving: Port,
    table: Table,
    rows: &[u16],
    levels: Levels,
    n: usize,
    input: &[u8],
    output: &mut [u8],
)
    requires { (n * 64 ≤ length input.now) × (n * 64 ≤ length output.old) }
    ensures { output.new ≡ batch_of (record { arriving = arriving; leaving = leaving; table = lent table rows.now; levels = levels }) n input.now output.old }
{
    for i in 0..n {
        let at = i * SLOT;
        let end = at + SLOT;
        forward_one(
            arriving,
            leaving,
            table,
            rows,
            levels,
            &input[at..end],
            &mut output[at..end],
        );
    }
}

// Decides one record, and fills its slot.
fn forward_one(
    arriving: Port,
    leaving: Port,
    table: Table,
    rows: &[u16],
    levels: Levels,
    datagram: &[u8],
    slot: &mut [u8],
)
    requires { (length datagram.now ≡ 64) × (length slot.old ≡ 64) }
    ensures { (slot.new ≡ slot_of (record { arriving = arriving; leaving = leaving; table = lent table rows.now; levels = levels }) datagram.now slot.old) × (length slot.new ≡ 64) }
{
    let facts = read_facts(datagram);
    let end = 8 + capped(datagram[5]);
    let d = forward(
        arriving,
        leaving,
        table,
        rows,
        levels,
        facts,
        &datagram[8..end],
        &mut slot[24..],
    );
    put_head(d, slot);
}

// The five facts of a record.
fn read_facts(datagram: &[u8]) -> Facts
    requires { length datagram.now ≡ 64 }
    ensures { result ≡ facts_in datagram.now }
{
    Facts {
        error: datagram[0] != 0,
        group: datagram[1] != 0,
        link: datagram[2] != 0,
        fragment: datagram[3] != 0,
        source: datagram[4] != 0,
    }
}

// An area's length, at most what a record holds.
fn capped(n: u8) -> usize
    ensures { (result ≤ n) × (result ≤ 56) × (n ≤ 56 → result ≡ n) × (56 ≤ n → result ≡ 56) }
{
    if 56 < n {
        return 56;
    }
    n as usize
}

// The first five octets of a slot.
fn put_head(d: Decision, slot: &mut [u8])
    requires { length slot.old ≡ 64 }
    ensures { (slot.new ≡ with_head d slot.old) × (length slot.new ≡ 64) }
{
    slot[0] = d.number;
    slot[1] = d.kind;
    slot[2] = d.code;
    slot[3] = d.pointer;
    slot[4] = (d.count % 256) as u8;
}
