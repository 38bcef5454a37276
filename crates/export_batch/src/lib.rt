// Many datagrams in one call, through two ports of a gateway file: the file is read, and its two ports are checked, once for all of them (docs/LIVE.md). Records and slots are
// those of `forward_batch`.
#![tactic(auto)]

ghost use Rattle.std.specs.Prelude.{◌≡◌, length};
ghost use Rattle.forward_batch.specs.Batch.{slot_count, batch_of};
ghost use Rattle.file_read.specs.File.{file_reading, file_room};
ghost use Rattle.export_batch.specs.Batch.{between, set_read, rows_read, gateway_of};

use file_read::{FileRead, read_file};
use file_set::MAX_PORTS;
use forward_batch::forward_batch;
use port::Port;
use route_ports::no_port;
use table::{MAX_ROWS, levels_of};
use table_choose::{MAX_TABLES, Tables, first_table};

// How many numbers the rows of all tables have at most: with so many no sound file is refused for want of room.
const ROOM: usize = MAX_TABLES * MAX_ROWS * 3;

// Forwards every whole record of `input` that has a slot in `output`, from one port of the file to another, by the first table for their two domains. Answers how many.
pub fn inglebreek_forward_batch(
    file: &[u8],
    arriving: usize,
    leaving: usize,
    input: &[u8],
    output: &mut [u8],
) -> usize
    ensures value { result ≡ slot_count (length input.now) (length output.old) }
    ensures output_after { output.new ≡ batch_of (gateway_of (set_read file.now) (rows_read file.now) arriving leaving) (slot_count (length input.now) (length output.old)) input.now output.old }
{
    let mut rows = [0u16; ROOM];
    let read = read_gateway(file, &mut rows);
    let set = &read.set;
    let used = read.used;
    let kept = set.tables;
    let tables = Tables {
        count: set.tablecount,
        items: kept,
    };
    if (arriving < MAX_PORTS) & (leaving < MAX_PORTS) {
        let from = set.ports[arriving];
        let to = set.ports[leaving];
        return forward_between(from, to, tables, &rows[..used], input, output);
    }
    let none = no_port();
    forward_between(none, none, tables, &rows[..used], input, output)
}

// Reads the file. A call of its own, so that the stack of reading is free again when the datagrams are decided.
#[inline(never)]
fn read_gateway(file: &[u8], rows: &mut [u16]) -> FileRead
    ensures { (result ≡ file_reading file.now (length rows.old)) × (rows.new ≡ file_room file.now rows.old) }
{
    read_file(file, rows)
}

// Forwards them from one port to another, by the first table for their two domains.
fn forward_between(
    from: Port,
    to: Port,
    tables: Tables,
    rows: &[u16],
    input: &[u8],
    output: &mut [u8],
) -> usize
    ensures value { result ≡ slot_count (length input.now) (length output.old) }
    ensures output_after { output.new ≡ batch_of (between from to tables rows.now) (slot_count (length input.now) (length output.old)) input.now output.old }
{
    let found = first_table(tables, rows, from.domain, to.domain);
    let item = found.item;
    let at = found.at;
    let end = found.end;
    forward_batch(
        from,
        to,
        item.table,
        &rows[at..end],
        levels_of(item),
        input,
        output,
    )
}
