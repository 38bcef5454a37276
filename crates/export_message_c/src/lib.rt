// The functions of the crate `export_message`, exported for Rust and C.
#![tactic(auto)]

ghost use Rattle.std.specs.Prelude.{◌≡◌, length};
ghost use Rattle.message.specs.Message.{parts_of};
ghost use Rattle.message_build.specs.Build.{outcome, built_of, message_left, options_left};
ghost use Rattle.export_message.specs.Export.{report_by, build_number, counts_in, read_number, parts_in};

#[unsafe(no_mangle)]
pub extern "C" fn inglebreek_build_message(
    number: u8,
    kind: u8,
    code: u8,
    pointer: u8,
    header: &[u8],
    payload: &[u8],
    message: &mut [u8],
    options: &mut [u8],
    written: &mut usize,
    carried: &mut usize,
) -> u8
    ensures value { result ≡ build_number (built_of (outcome (report_by number kind code pointer) header.now payload.now (length message.old) (length options.old))) }
    ensures written_after { written.new ≡ (counts_in (built_of (outcome (report_by number kind code pointer) header.now payload.now (length message.old) (length options.old)))).message }
    ensures carried_after { carried.new ≡ (counts_in (built_of (outcome (report_by number kind code pointer) header.now payload.now (length message.old) (length options.old)))).options }
    ensures message_after { message.new ≡ message_left (outcome (report_by number kind code pointer) header.now payload.now (length message.old) (length options.old)) message.old }
    ensures options_after { options.new ≡ options_left (outcome (report_by number kind code pointer) header.now payload.now (length message.old) (length options.old)) options.old }
{
    export_message::inglebreek_build_message(
        number, kind, code, pointer, header, payload, message, options, written, carried,
    )
}

#[unsafe(no_mangle)]
pub extern "C" fn inglebreek_read_message(
    octets: &[u8],
    kind: &mut u8,
    code: &mut u8,
    pointer: &mut u8,
    header: &mut usize,
    payload: &mut usize,
) -> u8
    ensures value { result ≡ read_number (parts_of octets.now) }
    ensures kind_after { kind.new ≡ (parts_in (parts_of octets.now)).kind }
    ensures code_after { code.new ≡ (parts_in (parts_of octets.now)).code }
    ensures pointer_after { pointer.new ≡ (parts_in (parts_of octets.now)).pointer }
    ensures header_after { header.new ≡ (parts_in (parts_of octets.now)).header }
    ensures payload_after { payload.new ≡ (parts_in (parts_of octets.now)).payload }
{
    export_message::inglebreek_read_message(octets, kind, code, pointer, header, payload)
}
