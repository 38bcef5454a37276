// The ICMP message of a refusal, for Rust and C: built, and read (document 02, Wish 9; docs/LIVE.md).
#![tactic(auto)]

ghost use Rattle.std.specs.Prelude.{◌≡◌, length};
ghost use Rattle.message.specs.Message.{parts_of};
ghost use Rattle.message_build.specs.Build.{outcome, built_of, message_left, options_left};
ghost use Rattle.export_message.specs.Export.{report_by, build_number, counts_in, read_number, parts_in};

use message::{NO_MESSAGE, read_message};
use message_build::{Report, build_message};

// Builds the message of a refusal (its number, ICMP type, code and pointer) about a datagram with this header and data, and the options area of the datagram that carries it. Answers 0,
// and `written` and `carried` get how many octets of `message` and of `options` are written: both 0 where nothing is sent. Or answers 2 for a header or a report that is not sound, 24
// for too little room; both then get 0, and both buffers stay as they were.
pub fn inglebreek_build_message(
    number: u8,
    kind: u8,
    code: u8,
    pointer: u8,
    header: &[u8],
    payload: &[u8],
    message: &mut [u8],
    options: &mut [u8],
    written: &mut usize,
    carried: &mut usize,
) -> u8
    ensures value { result ≡ build_number (built_of (outcome (report_by number kind code pointer) header.now payload.now (length message.old) (length options.old))) }
    ensures written_after { written.new ≡ (counts_in (built_of (outcome (report_by number kind code pointer) header.now payload.now (length message.old) (length options.old)))).message }
    ensures carried_after { carried.new ≡ (counts_in (built_of (outcome (report_by number kind code pointer) header.now payload.now (length message.old) (length options.old)))).options }
    ensures message_after { message.new ≡ message_left (outcome (report_by number kind code pointer) header.now payload.now (length message.old) (length options.old)) message.old }
    ensures options_after { options.new ≡ options_left (outcome (report_by number kind code pointer) header.now payload.now (length message.old) (length options.old)) options.old }
{
    let report = Report {
        number: number,
        kind: kind,
        code: code,
        pointer: pointer,
    };
    *written = 0;
    *carried = 0;
    match build_message(report, header, payload, message, options) {
        Ok(Some(built)) => {
            *written = built.message;
            *carried = built.options;
            0
        }
        Ok(None) => 0,
        Err(error) => u8::from(error),
    }
}

// Reads a message that reports a refusal. Answers 0: `kind`, `code` and `pointer` get its type, code and pointer, `header` how many octets the quoted header has, which stands from
// octet 8 on, and `payload` how many data octets stand behind it. Or answers 25 for any other octets, and all five get 0.
pub fn inglebreek_read_message(
    octets: &[u8],
    kind: &mut u8,
    code: &mut u8,
    pointer: &mut u8,
    header: &mut usize,
    payload: &mut usize,
) -> u8
    ensures value { result ≡ read_number (parts_of octets.now) }
    ensures kind_after { kind.new ≡ (parts_in (parts_of octets.now)).kind }
    ensures code_after { code.new ≡ (parts_in (parts_of octets.now)).code }
    ensures pointer_after { pointer.new ≡ (parts_in (parts_of octets.now)).pointer }
    ensures header_after { header.new ≡ (parts_in (parts_of octets.now)).header }
    ensures payload_after { payload.new ≡ (parts_in (parts_of octets.now)).payload }
{
    match read_message(octets) {
        Some(parts) => {
            *kind = parts.kind;
            *code = parts.code;
            *pointer = parts.pointer;
            *header = parts.header;
            *payload = parts.payload;
            0
        }
        None => {
            *kind = 0;
            *code = 0;
            *pointer = 0;
            *header = 0;
            *payload = 0;
            NO_MESSAGE
        }
    }
}
