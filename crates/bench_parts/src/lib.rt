// What tools/bench times of the parts: the bitmap alone, and the house file. As in the crate `bench_loops`, the functions are for measuring alone, and every
// answer depends on all results.
#![tactic(auto)]

ghost use Rattle.std.specs.Prelude.{◌≤◌};

use file_read::read_file;
use file_set::Set;
use file_write::{WriteError, write_file};
use option_read_bitmap::{read_bitmap, row_of};
use table::MAX_ROWS;
use table_choose::MAX_TABLES;

// How many numbers the rows of all tables have at most.
const ROOM: usize = MAX_TABLES * MAX_ROWS * 3;

// Reads the bitmaps of `size` octets that stand one after the other, `times` in all, from the first again after the last.
pub fn time_bitmap(octets: &[u8], size: usize, times: usize) -> usize {
    let n = octets.len();
    if n < size {
        return 0;
    }
    let last = n - size;
    let mut keys = [0u32; 120];
    let mut at: usize = 0;
    let mut total: usize = 0;
    for _ in 0..times {
        let end = at + size;
        let found = read_bitmap(&octets[at..end], &mut keys);
        // a key too: one that is never read is not written
        let first = keys[0] as usize;
        let (number, count) = row_of(found);
        total = mix(mix(mix(total, usize::from(number)), count), first);
        at = next_place(at, size, last);
    }
    total
}

// Reads the gateway file, `times` in all.
pub fn time_read_file(octets: &[u8], times: usize) -> usize {
    let mut rows = [0u16; ROOM];
    read_again(octets, &mut rows, times)
}

fn read_again(octets: &[u8], rows: &mut [u16], times: usize) -> usize {
    let mut total: usize = 0;
    for _ in 0..times {
        let read = read_file(octets, &mut rows[..]);
        total = mix(total, read.verdict as usize);
    }
    total
}

// Reads the gateway file once, and writes its set, `times` in all.
pub fn time_write_file(octets: &[u8], out: &mut [u8], times: usize) -> usize {
    let mut rows = [0u16; ROOM];
    let read = read_file(octets, &mut rows);
    let set = read.set;
    let used = read.used;
    write_again(set, &rows[..used], out, times)
}

fn write_again(set: Set, rows: &[u16], out: &mut [u8], times: usize) -> usize {
    let mut total: usize = 0;
    for _ in 0..times {
        let w = write_file(set, rows, &mut out[..]);
        total = written_digest(total, w);
    }
    total
}

// The place after this one, or the first again.
fn next_place(at: usize, size: usize, last: usize) -> usize
    requires { at ≤ last }
    ensures { result ≤ last }
{
    if last - at < size {
        return 0;
    }
    at + size
}

fn mix(total: usize, x: usize) -> usize {
    (total % 65536) * 31 + x % 65536
}

// The number of the writer, and the count; no number is that of a refusal by name.
fn written_digest(total: usize, w: Result<usize, WriteError>) -> usize {
    match w {
        Ok(count) => mix(mix(total, 0), count),
        Err(WriteError::Short) => mix(mix(total, 1), 0),
        Err(WriteError::Unsound) => mix(mix(total, 2), 0),
        Err(WriteError::Long) => mix(mix(total, 3), 0),
    }
}
