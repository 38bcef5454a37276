// A tag 1 bitmap is written (document 01, "Option and tags"): the bits of the runs, one run after the other.
#![tactic(auto)]

ghost use Rattle.std.specs.Prelude.{◌≡◌, ◌/◌, ◌^◌, ◌≤◌, ◌<◌, length};
ghost use Rattle.label.specs.Runs.{run, covers};
ghost use Rattle.label_keys.specs.Keys.{key_run, key_runs};
ghost use Rattle.option.specs.Spelling.{octets_of};
ghost use Rattle.option_write_bitmap.specs.Stages.{RunAdded};

use label::Run;

// Writes the bitmap of the keys' runs over the whole output; what lies past its end is left out. The runs may come in any order and overlap.
pub fn write_bitmap(keys: &[u32], out: &mut [u8])
    ensures { out.new ≡ octets_of (covers (key_runs keys.now)) (length out.old) }
{
    out.fill(0);
    for key in keys {
        add_run(*key, &mut out[..]);
    }
}

// An octet's ones from a bit on; bit 0 is the top one.
fn ones_from(bit: usize) -> u8
    requires { bit < 8 }
    ensures { result ≡ 255 / 2 ^ bit }
{
    255 >> bit
}

// A run's bits are added to a bitmap: ones from its first bit on, without those after its last. Most runs lie in one octet or in two.
fn add_run(key: u32, out: &mut [u8])
    ensures { RunAdded (key_run key) out.old out.new }
{
    let low = (key / Run::KEY_FACTOR) as usize;
    let high = (key % Run::KEY_FACTOR) as usize;
    if high < low {
        return;
    }
    let first = low / 8;
    let last = high / 8;
    if last < out.len() {
        let ones = ones_from(low % 8);
        let after: u8 = 127 >> (high % 8);
        if first == last {
            out[last] = out[last] | (ones - after);
            return;
        }
        if first + 1 == last {
            out[first] = out[first] | ones;
            out[last] = out[last] | (255 - after);
            return;
        }
    }
    add_long(low, high, out);
}

// The same, octet by octet.
fn add_long(low: usize, high: usize, out: &mut [u8])
    requires { (low ≤ high) × (high < 65536) }
    ensures { RunAdded (run low high) out.old out.new }
{
    let n = out.len();
    let last = high / 8;
    let mut ones = ones_from(low % 8);
    for o in low / 8..n {
        if o == last {
            let after: u8 = 127 >> (high % 8);
            out[o] = out[o] | (ones - after);
            return;
        }
        out[o] = out[o] | ones;
        ones = 255;
    }
}
