// The gateway file of a program (document 02, wish 1): `gateway.bin` in the folder that it is run in, its rows read into lent room.
#![tactic(auto)]

ghost use Rattle.std.specs.Prelude.{◌≤◌, length};
ghost use Rattle.file_load.specs.Load.{Loads};

use file_read::{FileRead, read_file};
use std::fs;
use std::fs::File;
use std::io::Read;
use table::MAX_ROWS;
use table_choose::MAX_TABLES;

// How many numbers the rows of all tables have at most: with so many no sound file is refused for want of room.
pub const ROOM: usize = MAX_TABLES * MAX_ROWS * 3;

// One octet more than the longest file has: octets past it are noticed.
const FILE: usize = 61441;

// Reads the file, the rows of its tables into the room; an unreadable file is an empty one, and so is refused.
pub fn load_file(rt: &HostRuntime, rows: &mut [u16]) -> FileRead
    ensures { Loads rows.old rows.new result }
{
    let mut octets = [0u8; FILE];
    let n = read_whole(rt, &mut octets);
    read_file(&octets[..n], rows)
}

// Fills the front of the octets with the file, as far as they have room and reads succeed, and answers how many they are: none where it cannot be opened.
fn read_whole(rt: &HostRuntime, octets: &mut [u8]) -> usize
    ensures { result ≤ length octets.new }
{
    match fs::open(rt, "gateway.bin") {
        Ok(mut file) => fill(&mut file, octets),
        Err(_) => 0,
    }
}

// Reads until the octets are full, the file ends or a read fails, and answers how many were read.
fn fill(file: &mut File, octets: &mut [u8]) -> usize
    ensures { result ≤ length octets.new }
{
    let mut n = 0;
    while n < octets.len() {
        let got = file.read(&mut octets[n..]).unwrap_or(0);
        if got == 0 {
            return n;
        }
        n += got;
    }
    n
}
