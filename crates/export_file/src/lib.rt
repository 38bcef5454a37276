// Gateway files for Rust and C: whether one is accepted, and where it is refused (docs/FILE.md).
#![tactic(auto)]

ghost use Rattle.std.specs.Prelude.{◌≡◌, ◌/◌};
ghost use Rattle.export_file.specs.Export.{checking};

use file_read::read_file;
use table::MAX_ROWS;
use table_choose::MAX_TABLES;

// How many numbers the rows of all tables have at most: with so many no sound file is refused for want of room.
pub const ROOM: usize = MAX_TABLES * MAX_ROWS * 3;

// Checks a gateway file. Answers 0 where it is accepted: `ports`, `tables` and `rows` get how many it has, and `place` gets 0. Answers 101 where it is refused: `place` gets the place of
// the first octet of the first bad field. Answers 102 where its version is not known: that is octet 2, and `place` gets 2. Of a file that is not accepted the three counts are 0.
pub fn inglebreek_check_file(
    file: &[u8],
    place: &mut usize,
    ports: &mut usize,
    tables: &mut usize,
    rows: &mut usize,
) -> u8
    ensures value { result ≡ (checking file.now).verdict }
    ensures place_after { place.new ≡ (checking file.now).at }
    ensures ports_after { ports.new ≡ (checking file.now).set.portcount }
    ensures tables_after { tables.new ≡ (checking file.now).set.tablecount }
    ensures rows_after { rows.new ≡ (checking file.now).used / 3 }
{
    let mut room = [0u16; ROOM];
    let read = read_file(file, &mut room);
    let set = read.set;
    *place = read.at;
    *ports = set.portcount;
    *tables = set.tablecount;
    *rows = read.used / 3;
    read.verdict
}
