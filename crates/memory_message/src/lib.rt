// A destination complains that an option 134 is missing (document 02, Wish 13; RFC 1108): the memory notes it.
#![tactic(auto)]

ghost use Rattle.std.specs.Prelude.{◌≡◌, false, ◌&&◌, ◌≤◌, ◌<◌, eqb, length, drop};
ghost use Rattle.memory_message.specs.Complaint.{complaint_of, destination_in};

use memory::{Memory, Recall};
use message::{NO_MESSAGE, Parts, read_message};

// Notes the destination in the quoted header of a missing-option message (12/1/134): 2 for a memory that stands for no list, then 25 for any other octets,
// both with the memory as it was; else what noting the destination answers.
pub fn note_message(memory: Memory, octets: &[u8]) -> Recall
    ensures { result ≡ complaint_of octets.now memory }
{
    if !memory.stands() {
        return refuse(2, memory);
    }
    match read_message(octets) {
        Some(parts) if is_missing(parts) => memory.note(destination_in(octets)),
        _ => refuse(NO_MESSAGE, memory),
    }
}

fn refuse(number: u8, memory: Memory) -> Recall
    ensures { result ≡ record { number = number; known = false; memory = memory } }
{
    Recall {
        number: number,
        known: false,
        memory: memory,
    }
}

// Whether the message is a missing-option message.
fn is_missing(parts: Parts) -> bool
    ensures { result ≡ (eqb parts.kind 12 && (eqb parts.code 1 && eqb parts.pointer 134)) }
{
    parts.kind == 12 && parts.code == 1 && parts.pointer == 134
}

// The destination in the header that a message quotes: its octets 16 to 19, from octet 8 of the message on.
fn destination_in(octets: &[u8]) -> u32
    requires { 28 ≤ length octets.now }
    ensures { result ≡ destination_in (drop 8 octets.now) }
{
    u32::from_be_bytes([octets[24], octets[25], octets[26], octets[27]])
}
