// The functions of the crate `bench_parts`, exported for Rust and C.
#![tactic(auto)]

#[unsafe(no_mangle)]
pub extern "C" fn time_bitmap(octets: &[u8], size: usize, times: usize) -> usize {
    bench_parts::time_bitmap(octets, size, times)
}

#[unsafe(no_mangle)]
pub extern "C" fn time_read_file(octets: &[u8], times: usize) -> usize {
    bench_parts::time_read_file(octets, times)
}

#[unsafe(no_mangle)]
pub extern "C" fn time_write_file(octets: &[u8], out: &mut [u8], times: usize) -> usize {
    bench_parts::time_write_file(octets, out, times)
}
