// The functions of the crate `bench_exports`, exported for Rust and C.
#![tactic(auto)]

ghost use Rattle.std.specs.Prelude.{length};
ghost use Rattle.bench_exports.specs.Answers.{label_of_keys, facts_of, sample_forwarding, Reads, Spells, Forwards};

#[unsafe(no_mangle)]
pub extern "C" fn inglebreek_read(octets: &[u8], answer: &mut [u64], runs: &mut [u32]) -> u8
    ensures { Reads octets.now answer.old runs.old answer.new runs.new result }
{
    bench_exports::inglebreek_read(octets, answer, runs)
}

#[unsafe(no_mangle)]
pub extern "C" fn inglebreek_spell(
    domain: u32,
    level: u8,
    runs: &[u32],
    out: &mut [u8],
    answer: &mut [u64],
) -> u8
    ensures { Spells (label_of_keys domain level runs.now) out.old answer.old out.new answer.new result }
{
    bench_exports::inglebreek_spell(domain, level, runs, out, answer)
}

#[unsafe(no_mangle)]
pub extern "C" fn inglebreek_forward(
    error: bool,
    group: bool,
    link: bool,
    fragment: bool,
    source: bool,
    area: &[u8],
    out: &mut [u8],
    answer: &mut [u64],
    runs: &mut [u32],
) -> u8
    ensures { Forwards (sample_forwarding (facts_of error group link fragment source) area.now (length out.old)) out.old answer.old runs.old out.new answer.new runs.new result }
{
    bench_exports::inglebreek_forward(
        error, group, link, fragment, source, area, out, answer, runs,
    )
}
