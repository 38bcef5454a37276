// Entry 25: calls of the memory.
use crate::field::Case;
use case_lines::Words;
use memory::{Memory, Recall};
use memory_message::note_message;
use text::Line;

// A call of the memory.
#[derive(Clone, Copy)]
enum Call<'a> {
    Note(u32),
    Ask(u32),
    Forget(u32),
    Clear,
    Message(&'a [u8]),
}

// Each call's number and what it said; then the count and the addresses.
pub fn ask_memory(case: &mut Case, line: &mut Line) -> Option<()> {
    let mut memory = take_memory(case)?;
    let begin = line.end;
    // each call has an octet at least, so that there are no more than the case has octets
    for _ in 0..case.len() {
        if case.end().is_some() {
            break;
        }
        let call = take_call(case)?;
        put_space(line, begin);
        put_call(line, call, &mut memory);
    }
    put_space(line, begin);
    put_memory(line, &memory);
    Some(())
}

fn take_memory(case: &mut Case) -> Option<Memory> {
    let count = case.octet()?;
    let stored = case.stored(Memory::MOST)?;
    let mut addresses = [0u32; Memory::MOST];
    for address in addresses[..stored].iter_mut() {
        *address = case.word()?;
    }
    Some(Memory {
        count: usize::from(count),
        addresses,
    })
}

// One call: 1 note, 2 ask, 3 forget, 4 clear, 5 message; no other.
fn take_call<'a>(case: &mut Case<'a>) -> Option<Call<'a>> {
    match case.octet()? {
        1 => Some(Call::Note(case.word()?)),
        2 => Some(Call::Ask(case.word()?)),
        3 => Some(Call::Forget(case.word()?)),
        4 => Some(Call::Clear),
        5 => Some(Call::Message(case.long_octets()?)),
        _ => None,
    }
}

// Makes a call, and puts what it answers; clear has the number 0, and says nothing.
fn put_call(line: &mut Line, call: Call, memory: &mut Memory) {
    let recall = match call {
        Call::Note(address) => memory.note(address),
        Call::Ask(address) => memory.ask(address),
        Call::Forget(address) => memory.forget(address),
        Call::Message(octets) => note_message(*memory, octets),
        Call::Clear => {
            *memory = memory.clear();
            put_unsaid(line, 0);
            return;
        }
    };
    *memory = recall.memory;
    put_recall(line, &recall);
}

// A blank, if there is something before it.
fn put_space(line: &mut Line, begin: usize) {
    if begin < line.end {
        line.octet(b' ');
    }
}

// Number, and YES or NO; `-` for refusals.
fn put_recall(line: &mut Line, recall: &Recall) {
    if recall.number != 0 {
        put_unsaid(line, recall.number);
    } else {
        line.word(b"0 ");
        recall.known.put(line);
    }
}

// A number, and `-`.
fn put_unsaid(line: &mut Line, number: u8) {
    line.decimal(u64::from(number));
    line.word(b" -");
}

// The count, and the addresses, oldest first; no more than 64.
fn put_memory(line: &mut Line, memory: &Memory) {
    line.decimal(memory.count as u64);
    for address in memory.addresses.iter().take(memory.count) {
        line.next(u64::from(*address));
    }
}
