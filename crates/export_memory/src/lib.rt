// Which destinations want labels, for Rust and C: the memory of up to 64 addresses in lent numbers (document 02, Wish 13).
//
// The caller lends a count and a list: its first 64 places are the memory's, the oldest address first, and the unused ones of them 0. A list of under 64 places is answered by 1, and
// nothing changes. All zeros are the memory that holds no address.
#![tactic(auto)]

ghost use Rattle.std.specs.Prelude.{◌≡◌, false, ◌++◌, ◌≤◌, ◌<◌, length, drop};
ghost use Rattle.memory.specs.Memory.{note_of, ask_of, forget_of};
ghost use Rattle.memory.specs.declared.Recall.{Recall};
ghost use Rattle.memory_message.specs.Complaint.{complaint_of};
ghost use Rattle.export_memory.specs.Export.{memory_in, number_by, known_by, count_by_call, addresses_by};

use memory::{Memory, Recall};
use memory_message::note_message;

// Notes an address in the memory: it becomes the newest, and where it is new and the memory is full, the oldest is dropped. Answers 0, and `known` gets whether it was there; or 1 for a
// list of under 64 places, 2 for a memory that stands for no list: `known` then gets 0, and the memory stays as it was.
pub fn inglebreek_note_address(
    address: u32,
    count: &mut usize,
    addresses: &mut [u32],
    known: &mut bool,
) -> u8
    ensures value { result ≡ number_by (note_of address) count.old addresses.old }
    ensures count_after { count.new ≡ count_by_call (note_of address) count.old addresses.old }
    ensures addresses_after { addresses.new ≡ addresses_by (note_of address) count.old addresses.old }
    ensures known_after { known.new ≡ known_by (note_of address) count.old addresses.old }
{
    call_lent(count, addresses, known, |memory| memory.note(address))
}

// Asks whether an address is in the memory, which stays as it was. Answers 0, and `known` gets whether it is; or 1 for a list of under 64 places, 2 for a memory that stands for no list:
// `known` then gets 0.
pub fn inglebreek_ask_address(address: u32, count: usize, addresses: &[u32], known: &mut bool) -> u8
    ensures value { result ≡ number_by (ask_of address) count addresses.now }
    ensures known_after { known.new ≡ known_by (ask_of address) count addresses.now }
{
    if addresses.len() < Memory::MOST {
        *known = false;
        return 1;
    }
    let recall = memory_in(count, addresses).ask(address);
    *known = recall.known;
    recall.number
}

// Forgets an address. Answers 0, and `known` gets whether it was in the memory; or 1 for a list of under 64 places, 2 for a memory that stands for no list: `known` then gets 0, and the
// memory stays as it was.
pub fn inglebreek_forget_address(
    address: u32,
    count: &mut usize,
    addresses: &mut [u32],
    known: &mut bool,
) -> u8
    ensures value { result ≡ number_by (forget_of address) count.old addresses.old }
    ensures count_after { count.new ≡ count_by_call (forget_of address) count.old addresses.old }
    ensures addresses_after { addresses.new ≡ addresses_by (forget_of address) count.old addresses.old }
    ensures known_after { known.new ≡ known_by (forget_of address) count.old addresses.old }
{
    call_lent(count, addresses, known, |memory| memory.forget(address))
}

// Notes the destination in the header that a missing-option message (12/1/134) quotes. Answers 0, and `known` gets whether it was in the memory; or 1 for a list of under 64 places, 2 for a
// memory that stands for no list, 25 for any other octets: `known` then gets 0, and the memory stays as it was.
pub fn inglebreek_note_message(
    octets: &[u8],
    count: &mut usize,
    addresses: &mut [u32],
    known: &mut bool,
) -> u8
    ensures value { result ≡ number_by (complaint_of octets.now) count.old addresses.old }
    ensures count_after { count.new ≡ count_by_call (complaint_of octets.now) count.old addresses.old }
    ensures addresses_after { addresses.new ≡ addresses_by (complaint_of octets.now) count.old addresses.old }
    ensures known_after { known.new ≡ known_by (complaint_of octets.now) count.old addresses.old }
{
    call_lent(
        count,
        addresses,
        known,
        |memory| note_message(memory, octets),
    )
}

// A call of the memory that changes it: what it leaves goes back into the lent numbers. Answers 1 where the list has under 64 places, and nothing is called.
fn call_lent<F: FnOnce(Memory) -> Recall>(
    count: &mut usize,
    addresses: &mut [u32],
    known: &mut bool,
    call: F,
) -> u8
    requires { F.IsAlwaysCallable call }
    ensures short { length addresses.old < 64 → (result ≡ 1) × (count.new ≡ count.old) × (addresses.new ≡ addresses.old) × (known.new ≡ false) }
    ensures whole { 64 ≤ length addresses.old → (r : Recall) × F.post call (memory_in count.old addresses.old) r × (result ≡ r.number) × (count.new ≡ r.memory.count) × (addresses.new ≡ r.memory.addresses ++ drop 64 addresses.old) × (known.new ≡ r.known) }
{
    if addresses.len() < Memory::MOST {
        *known = false;
        return 1;
    }
    let recall = call(memory_in(*count, addresses));
    let memory = recall.memory;
    put_addresses(memory, addresses);
    *count = memory.count;
    *known = recall.known;
    recall.number
}

// The memory in the first 64 places of a list.
fn memory_in(count: usize, addresses: &[u32]) -> Memory
    requires { 64 ≤ length addresses.now }
    ensures { result ≡ memory_in count addresses.now }
{
    let mut own = [0u32; 64];
    own.copy_from_slice(&addresses[..64]);
    Memory {
        count: count,
        addresses: own,
    }
}

// The memory's addresses in the first 64 places of a list.
fn put_addresses(memory: Memory, addresses: &mut [u32])
    requires { 64 ≤ length addresses.old }
    ensures { addresses.new ≡ memory.addresses ++ drop 64 addresses.old }
{
    let own = memory.addresses;
    addresses[..64].copy_from_slice(&own);
}
