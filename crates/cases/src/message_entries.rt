// Entries 20 and 21: a message built, and read.
use crate::field::Case;
use case_lines::{LONGEST, put_part};
use message::{HEADER_AT, Parts, read_message};
use message_build::{Report, build_message};
use text::Line;

fn take_report(case: &mut Case) -> Option<Report> {
    let number = case.octet()?;
    let kind = case.octet()?;
    let code = case.octet()?;
    let pointer = case.octet()?;
    Some(Report {
        number,
        kind,
        code,
        pointer,
    })
}

// Entry 20. Number, message count, options count, and both outputs.
pub fn ask_build(case: &mut Case, line: &mut Line) -> Option<()> {
    let report = take_report(case)?;
    let header = case.octets()?;
    let payload = case.long_octets()?;
    let lent = case.output()?;
    let second = case.output()?;
    case.end()?;
    let room = lent.room;
    let space = second.room;
    let mut message = [lent.fill; LONGEST];
    let mut options = [second.fill; LONGEST];
    let built = build_message(
        report,
        header,
        payload,
        &mut message[..room],
        &mut options[..space],
    );
    let (number, counts) = message_build::row_of(built);
    line.decimal(u64::from(number));
    line.next(counts.message as u64);
    line.next(counts.options as u64);
    put_part(line, &message, room);
    put_part(line, &options, space);
    Some(())
}

// Entry 21. 25; or 0, type, code, pointer, header and data.
pub fn ask_message(case: &mut Case, line: &mut Line) -> Option<()> {
    let octets = case.long_octets()?;
    case.end()?;
    let (number, parts) = message::row_of(read_message(octets));
    line.decimal(u64::from(number));
    if number == 0 {
        put_parts(line, octets, &parts);
    }
    Some(())
}

fn put_parts(line: &mut Line, octets: &[u8], parts: &Parts) {
    line.next(u64::from(parts.kind));
    line.next(u64::from(parts.code));
    line.next(u64::from(parts.pointer));
    let header = rest_of(octets, HEADER_AT);
    put_part(line, header, parts.header);
    put_part(line, rest_of(header, parts.header), parts.payload);
}

// The octets from a place on; none where there is no such place.
fn rest_of(octets: &[u8], from: usize) -> &[u8] {
    octets.get(from..).unwrap_or(&[])
}
