// A gateway file written anew in the newest version, for Rust and C (docs/FILE.md). It stands alone, so that checking a file needs little of a thread's stack.
#![tactic(auto)]

ghost use Rattle.std.specs.Prelude.{◌≡◌, length};
ghost use Rattle.export_renew.specs.Renew.{number_in, count_in, renew_number, renew_count, renew_out};

use export_file::ROOM;
use file_read::{ACCEPTED, read_file};
use file_write::{WriteError, write_file};

// What is answered where a file would be longer than its version allows. It is no number of document 01.
pub const TOO_LONG: u8 = 104;

// Writes a gateway file anew in the newest version, whatever version says it. Answers 0, and `count` gets how many octets of `out` are written; the others stay. Or answers 101 or 102 as
// `inglebreek_check_file` does, then 104 for a file that would be longer than its version allows, then 1 for an `out` that is too short: `count` then gets 0, and `out` stays as it was.
pub fn inglebreek_renew_file(file: &[u8], out: &mut [u8], count: &mut usize) -> u8
    ensures value { result ≡ renew_number file.now (length out.old) }
    ensures out_after { out.new ≡ renew_out file.now out.old }
    ensures count_after { count.new ≡ renew_count file.now (length out.old) }
{
    let mut room = [0u16; ROOM];
    let read = read_file(file, &mut room);
    if read.verdict != ACCEPTED {
        *count = 0;
        return read.verdict;
    }
    let set = read.set;
    let used = read.used;
    let written = write_file(set, &room[..used], out);
    *count = count_in(written);
    number_in(written)
}

fn number_in(written: Result<usize, WriteError>) -> u8
    ensures { result ≡ number_in written }
{
    match written {
        Ok(_) => 0,
        Err(WriteError::Short) => 1,
        Err(WriteError::Unsound) => 2,
        Err(WriteError::Long) => TOO_LONG,
    }
}

fn count_in(written: Result<usize, WriteError>) -> usize
    ensures { result ≡ count_in written }
{
    written.unwrap_or(0)
}
