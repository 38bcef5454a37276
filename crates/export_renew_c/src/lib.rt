// The functions of the crate `export_renew`, exported for Rust and C.
#![tactic(auto)]

ghost use Rattle.std.specs.Prelude.{◌≡◌, length};
ghost use Rattle.export_renew.specs.Renew.{renew_number, renew_count, renew_out};

#[unsafe(no_mangle)]
pub extern "C" fn inglebreek_renew_file(file: &[u8], out: &mut [u8], count: &mut usize) -> u8
    ensures value { result ≡ renew_number file.now (length out.old) }
    ensures out_after { out.new ≡ renew_out file.now out.old }
    ensures count_after { count.new ≡ renew_count file.now (length out.old) }
{
    export_renew::inglebreek_renew_file(file, out, count)
}
