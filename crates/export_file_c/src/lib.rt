// The functions of the crate `export_file`, exported for Rust and C.
#![tactic(auto)]

ghost use Rattle.std.specs.Prelude.{◌≡◌, ◌/◌};
ghost use Rattle.export_file.specs.Export.{checking};

#[unsafe(no_mangle)]
pub extern "C" fn inglebreek_check_file(
    file: &[u8],
    place: &mut usize,
    ports: &mut usize,
    tables: &mut usize,
    rows: &mut usize,
) -> u8
    ensures value { result ≡ (checking file.now).verdict }
    ensures place_after { place.new ≡ (checking file.now).at }
    ensures ports_after { ports.new ≡ (checking file.now).set.portcount }
    ensures tables_after { tables.new ≡ (checking file.now).set.tablecount }
    ensures rows_after { rows.new ≡ (checking file.now).used / 3 }
{
    export_file::inglebreek_check_file(file, place, ports, tables, rows)
}
