// The functions of the crate `export_memory`, exported for Rust and C.
#![tactic(auto)]

ghost use Rattle.std.specs.Prelude.{◌≡◌};
ghost use Rattle.memory.specs.Memory.{note_of, ask_of, forget_of};
ghost use Rattle.memory_message.specs.Complaint.{complaint_of};
ghost use Rattle.export_memory.specs.Export.{number_by, known_by, count_by_call, addresses_by};

#[unsafe(no_mangle)]
pub extern "C" fn inglebreek_note_address(
    address: u32,
    count: &mut usize,
    addresses: &mut [u32],
    known: &mut bool,
) -> u8
    ensures value { result ≡ number_by (note_of address) count.old addresses.old }
    ensures count_after { count.new ≡ count_by_call (note_of address) count.old addresses.old }
    ensures addresses_after { addresses.new ≡ addresses_by (note_of address) count.old addresses.old }
    ensures known_after { known.new ≡ known_by (note_of address) count.old addresses.old }
{
    export_memory::inglebreek_note_address(address, count, addresses, known)
}

#[unsafe(no_mangle)]
pub extern "C" fn inglebreek_ask_address(
    address: u32,
    count: usize,
    addresses: &[u32],
    known: &mut bool,
) -> u8
    ensures value { result ≡ number_by (ask_of address) count addresses.now }
    ensures known_after { known.new ≡ known_by (ask_of address) count addresses.now }
{
    export_memory::inglebreek_ask_address(address, count, addresses, known)
}

#[unsafe(no_mangle)]
pub extern "C" fn inglebreek_forget_address(
    address: u32,
    count: &mut usize,
    addresses: &mut [u32],
    known: &mut bool,
) -> u8
    ensures value { result ≡ number_by (forget_of address) count.old addresses.old }
    ensures count_after { count.new ≡ count_by_call (forget_of address) count.old addresses.old }
    ensures addresses_after { addresses.new ≡ addresses_by (forget_of address) count.old addresses.old }
    ensures known_after { known.new ≡ known_by (forget_of address) count.old addresses.old }
{
    export_memory::inglebreek_forget_address(address, count, addresses, known)
}

#[unsafe(no_mangle)]
pub extern "C" fn inglebreek_note_message(
    octets: &[u8],
    count: &mut usize,
    addresses: &mut [u32],
    known: &mut bool,
) -> u8
    ensures value { result ≡ number_by (complaint_of octets.now) count.old addresses.old }
    ensures count_after { count.new ≡ count_by_call (complaint_of octets.now) count.old addresses.old }
    ensures addresses_after { addresses.new ≡ addresses_by (complaint_of octets.now) count.old addresses.old }
    ensures known_after { known.new ≡ known_by (complaint_of octets.now) count.old addresses.old }
{
    export_memory::inglebreek_note_message(octets, count, addresses, known)
}
