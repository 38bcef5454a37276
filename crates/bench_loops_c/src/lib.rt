// The functions of the crate `bench_loops`, exported for Rust and C.
#![tactic(auto)]

#[unsafe(no_mangle)]
pub extern "C" fn time_read(octets: &[u8], size: usize, times: usize) -> usize {
    bench_loops::time_read(octets, size, times)
}

#[unsafe(no_mangle)]
pub extern "C" fn time_spell(octets: &[u8], size: usize, out: &mut [u8], times: usize) -> usize {
    bench_loops::time_spell(octets, size, out, times)
}

#[unsafe(no_mangle)]
pub extern "C" fn time_forward(
    lower: u8,
    upper: u8,
    high: u16,
    rows: &[u16],
    width: usize,
    area: &[u8],
    size: usize,
    out: &mut [u8],
    times: usize,
) -> usize {
    bench_loops::time_forward(lower, upper, high, rows, width, area, size, out, times)
}
