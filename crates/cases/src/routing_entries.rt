// Entry 18: what is decided in a box of many ports.
ghost use Rattle.std.specs.Prelude.{◌≤◌};

use crate::box_record::{
    NUMBERS, TakenDatagram, TakenRoutes, TakenTables, lent_rows, take_box_ports, take_datagram,
    take_routes, take_tables,
};
use crate::field::Case;
use case_lines::{LONGEST, put_decided};
use file_port::empty_port;
use port::Port;
use route_decide::decide;
use text::Line;

// Entry 18.
pub fn ask_decide(case: &mut Case, line: &mut Line) -> Option<()> {
    let mut rows = [0u16; NUMBERS];
    let mut ports = [empty_port(); 64];
    let count = take_box_ports(case, &mut ports)?;
    let tables = take_tables(case, &mut rows)?;
    let routes = take_routes(case)?;
    let datagram = take_datagram(case)?;
    case.end()?;
    let lent = lent_rows(&rows, tables.rows, tables.fits);
    put_routed(&ports[..count], &tables, lent, &routes, &datagram, line);
    Some(())
}

// What the box decides, and the output.
fn put_routed(
    ports: &[Port],
    tables: &TakenTables,
    rows: &[u16],
    routes: &TakenRoutes,
    datagram: &TakenDatagram,
    line: &mut Line,
)
    requires { (routes.now.count ≤ 1024) × (datagram.now.output.room ≤ 512) }
{
    let room = datagram.output.room;
    let mut space = [datagram.output.fill; LONGEST];
    let decision = decide(
        ports,
        tables.tables,
        rows,
        &routes.numbers[..routes.count],
        datagram.arriving,
        datagram.destination,
        datagram.facts,
        datagram.area,
        &mut space[..room],
    );
    put_decided(line, &decision, &space, room);
}
