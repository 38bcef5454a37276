// Lists that are lent: one copied over the start of another.
#![tactic(auto)]

ghost use Rattle.std.specs.Prelude.{◌≡◌};
ghost use Rattle.lists.specs.Lists.{copied};

// Copies from the start of one list to the start of the other, as many as both have.
pub fn copy_list<T: Copy>(src: &[T], dst: &mut [T])
    ensures { dst.new ≡ copied src.now dst.old }
{
    let n = src.len().min(dst.len());
    for i in 0..n {
        dst[i] = src[i];
    }
}
