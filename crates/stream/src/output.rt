// Output: the first octets of a buffer, written.
ghost use Rattle.std.specs.Prelude.{◌≡◌, true};

use std::io::{Print, Stdout};

// Writes the first n octets, all where there are fewer, and answers whether they are written. A write that fails may have written some of them.
pub fn send(stdout: Stdout, out: &[u8], n: usize) -> bool
    ensures { n ≡ 0 → result ≡ true }
{
    if n == 0 {
        return true;
    }
    stdout.write_all(&out[..n.min(out.len())]).is_ok()
}
