// The functions of the crate `export_batch`, exported for Rust and C.
#![tactic(auto)]

ghost use Rattle.std.specs.Prelude.{◌≡◌, length};
ghost use Rattle.forward_batch.specs.Batch.{slot_count, batch_of};
ghost use Rattle.export_batch.specs.Batch.{set_read, rows_read, gateway_of};

#[unsafe(no_mangle)]
pub extern "C" fn inglebreek_forward_batch(
    file: &[u8],
    arriving: usize,
    leaving: usize,
    input: &[u8],
    output: &mut [u8],
) -> usize
    ensures value { result ≡ slot_count (length input.now) (length output.old) }
    ensures output_after { output.new ≡ batch_of (gateway_of (set_read file.now) (rows_read file.now) arriving leaving) (slot_count (length input.now) (length output.old)) input.now output.old }
{
    export_batch::inglebreek_forward_batch(file, arriving, leaving, input, output)
}
