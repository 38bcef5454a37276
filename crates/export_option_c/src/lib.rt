// The functions of the crate `export_option`, exported for Rust and C.
#![tactic(auto)]

ghost use Rattle.std.specs.Prelude.{◌≡◌, length};
ghost use Rattle.label_keys.specs.Keys.{with_keys};
ghost use Rattle.option_read.specs.Reading.{reading_of};
ghost use Rattle.option_spell.specs.Spelling.{spelling_answer, spelling_out};
ghost use Rattle.basic.specs.Alone.{basic_reading, basic_writing, basic_out};
ghost use Rattle.export_option.specs.Export.{label_by, spellings_by, read_number, reading_in, write_number, count_in};

#[unsafe(no_mangle)]
pub extern "C" fn inglebreek_read_option(
    octets: &[u8],
    pointer: &mut usize,
    domain: &mut u32,
    level: &mut u8,
    count: &mut usize,
    runs: &mut [u32],
) -> u8
    ensures value { result ≡ (reading_of octets.now).number }
    ensures pointer_after { pointer.new ≡ (reading_of octets.now).pointer }
    ensures domain_after { domain.new ≡ (reading_of octets.now).label.domain }
    ensures level_after { level.new ≡ (reading_of octets.now).label.level }
    ensures count_after { count.new ≡ (reading_of octets.now).label.count }
    ensures runs_after { runs.new ≡ with_keys (reading_of octets.now).label runs.old }
{
    export_option::inglebreek_read_option(octets, pointer, domain, level, count, runs)
}

#[unsafe(no_mangle)]
pub extern "C" fn inglebreek_spell_label(
    domain: u32,
    level: u8,
    runs: &[u32],
    shortest: bool,
    ten: bool,
    numbers: bool,
    pairs: bool,
    out: &mut [u8],
    count: &mut usize,
) -> u8
    ensures value { result ≡ (spelling_answer (spellings_by shortest ten numbers pairs) (label_by domain level runs.now) (length out.old)).number }
    ensures out_after { out.new ≡ spelling_out (spellings_by shortest ten numbers pairs) (label_by domain level runs.now) out.old }
    ensures count_after { count.new ≡ (spelling_answer (spellings_by shortest ten numbers pairs) (label_by domain level runs.now) (length out.old)).count }
{
    export_option::inglebreek_spell_label(
        domain, level, runs, shortest, ten, numbers, pairs, out, count,
    )
}

#[unsafe(no_mangle)]
pub extern "C" fn inglebreek_read_basic(octets: &[u8], level: &mut u8, flags: &mut u16) -> u8
    ensures value { result ≡ read_number (basic_reading octets.now) }
    ensures level_after { level.new ≡ (reading_in (basic_reading octets.now)).level }
    ensures flags_after { flags.new ≡ (reading_in (basic_reading octets.now)).flags }
{
    export_option::inglebreek_read_basic(octets, level, flags)
}

#[unsafe(no_mangle)]
pub extern "C" fn inglebreek_write_basic(
    level: u8,
    flags: u16,
    out: &mut [u8],
    count: &mut usize,
) -> u8
    ensures value { result ≡ write_number (basic_writing level flags (length out.old)) }
    ensures out_after { out.new ≡ basic_out level flags out.old }
    ensures count_after { count.new ≡ count_in (basic_writing level flags (length out.old)) }
{
    export_option::inglebreek_write_basic(level, flags, out, count)
}
