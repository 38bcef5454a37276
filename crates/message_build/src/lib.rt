// The ICMP message itself (document 02, Wish 9): a refusal's message, and the options area of the reply that carries it.
#![tactic(auto)]

ghost use Rattle.std.specs.Prelude.{◌≡◌, true, ◌||◌, ◌++◌, ◌+◌, ◌≤◌, length, drop};
ghost use Rattle.area_leaving.specs.Kept.{round_up};
ghost use Rattle.message_reply.specs.Reply.{padded};
ghost use Rattle.message_build.specs.Answer.{number_of, row_of};
ghost use Rattle.message_build.specs.Build.{silent, unsound, unanswered, outcome, room_for, message_by, built_of, message_left, options_left};

use lists::copy_list;
use message::{reports_refusal, whole_header, write_message};
use message_reply::find_reply;

// A refusal as it is reported: its number, and its ICMP type (`kind`), code and pointer, all three 0 where it is silent.
#[derive(Clone, Copy)]
pub struct Report {
    pub number: u8,
    pub kind: u8,
    pub code: u8,
    pub pointer: u8,
}

// What was built: how many octets of both outputs were written.
#[derive(Clone, Copy)]
pub struct Built {
    pub message: usize,
    pub options: usize,
}

// Why no message was built.
#[derive(Clone, Copy)]
pub enum BuildError {
    // 2: a header that is not whole, or a report that no message carries
    Unsound,
    // 24: an output is too short
    Short,
}

// The number of the refusal.
impl From<BuildError> for u8 {
    ghost from_gives = { λ e n. n ≡ number_of e };

    fn from(error: BuildError) -> u8 {
        match error {
            BuildError::Unsound => 2,
            BuildError::Short => 24,
        }
    }
}

// Builds the message of a refusal about a datagram with this header and data, and the options area of the reply: an error for a header that is not whole or
// a report that no message carries; then none where nothing is sent; then an error where an output is too short. All three leave both outputs as they were;
// else octets behind what is written stay.
pub fn build_message(
    report: Report,
    header: &[u8],
    payload: &[u8],
    message: &mut [u8],
    options: &mut [u8],
) -> Result<Option<Built>, BuildError>
    ensures value { result ≡ built_of (outcome report header.now payload.now (length message.old) (length options.old)) }
    ensures message_after { message.new ≡ message_left (outcome report header.now payload.now (length message.old) (length options.old)) message.old }
    ensures options_after { options.new ≡ options_left (outcome report header.now payload.now (length message.old) (length options.old)) options.old }
{
    if is_unsound(report, header) {
        return Err(BuildError::Unsound);
    }
    if is_quiet(report) {
        return Ok(None);
    }
    let area = &header[20..];
    match find_reply(area) {
        None => Ok(None),
        Some(copied) => {
            let end = copied.at + copied.count;
            send(
                report,
                header,
                payload,
                &area[copied.at..end],
                &mut message[..],
                &mut options[..],
            )
        }
    }
}

// An answer as a row: 0 and both counts, or a refusal's number. Both counts are 0 for a refusal and where nothing is sent.
pub fn row_of(answer: Result<Option<Built>, BuildError>) -> (u8, Built)
    ensures { (result.0 ≡ (row_of answer).number) × (result.1.message ≡ (row_of answer).message) × (result.1.options ≡ (row_of answer).options) }
{
    let nothing = Built {
        message: 0,
        options: 0,
    };
    match answer {
        Ok(built) => (0, built.unwrap_or(nothing)),
        Err(error) => (u8::from(error), nothing),
    }
}

// Whether type, code and pointer are all 0.
fn is_silent(report: Report) -> bool
    ensures { result ≡ silent report }
{
    (report.kind == 0) & ((report.code == 0) & (report.pointer == 0))
}

// Whether the header is not whole, or the report neither silent nor one that a message carries.
fn is_unsound(report: Report, header: &[u8]) -> bool
    ensures { result ≡ unsound report header.now }
{
    if !whole_header(header) {
        return true;
    }
    if is_silent(report) {
        return false;
    }
    !reports_refusal(report.kind, report.pointer)
}

// Whether nothing is sent, whatever the header: a silent refusal, or one of 3 to 5, 7 to 13 and 23.
fn is_quiet(report: Report) -> bool
    ensures { result ≡ (silent report || unanswered report.number) }
{
    is_silent(report) | is_unanswered(report.number)
}

fn is_unanswered(number: u8) -> bool
    ensures { result ≡ unanswered number }
{
    ((3 <= number) & (number <= 5)) | (((7 <= number) & (number <= 13)) | (number == 23))
}

// Writes the message, and the option with zeros to a multiple of 4, where both outputs have room.
fn send(
    report: Report,
    header: &[u8],
    payload: &[u8],
    option: &[u8],
    message: &mut [u8],
    options: &mut [u8],
) -> Result<Option<Built>, BuildError>
    ensures value { result ≡ built_of (room_for (message_by report header.now payload.now) (padded option.now) (length message.old) (length options.old)) }
    ensures message_after { message.new ≡ message_left (room_for (message_by report header.now payload.now) (padded option.now) (length message.old) (length options.old)) message.old }
    ensures options_after { options.new ≡ options_left (room_for (message_by report header.now payload.now) (padded option.now) (length message.old) (length options.old)) options.old }
{
    let size = (option.len() + 3) / 4 * 4;
    if options.len() < size {
        return Err(BuildError::Short);
    }
    let count = write_message(
        report.kind,
        report.code,
        report.pointer,
        header,
        payload,
        &mut message[..],
    );
    if count == 0 {
        return Err(BuildError::Short);
    }
    write_padded(option, size, &mut options[..]);
    Ok(Some(Built {
        message: count,
        options: size,
    }))
}

// Writes an option, and zeros up to a size.
fn write_padded(option: &[u8], size: usize, out: &mut [u8])
    requires { (size ≡ round_up (length option.now)) × (size ≤ length out.old) }
    ensures { out.new ≡ padded option.now ++ drop size out.old }
{
    let n = option.len();
    copy_list(option, &mut out[..]);
    out[n..size].fill(0);
}
