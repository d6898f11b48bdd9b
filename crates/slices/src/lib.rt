// Parts of byte slices: a copy from one slice into another, where there is room for it. Document 01 says of every writer that the bytes past its
// output stay; here is the place where they copy bytes.
#![tactic(auto)]

ghost use Rattle.std.specs.Prelude.{◌≡◌, ◌+◌, ◌≤◌, min, length};
ghost use Rattle.slices.specs.Parts.{copied, fits};

// The smaller of two sizes: `min`, by the name that it has had here.
pub fn least(a: usize, b: usize) -> usize
    ensures { result ≡ min a b }
{
    a.min(b)
}

// Copies `size` bytes of `source` from `start` on into `target` from `at` on, where both have that many bytes there; else copies
// nothing. Answers whether it copied.
pub fn copy(source: &[u8], start: usize, size: usize, target: &mut [u8], at: usize) -> bool
    ensures answer { result ≡ fits source.now start size target.old at }
    ensures filled { target.new ≡ copied source.now start size target.old at }
{
    if source.len() < start
        || source.len() - start < size
        || target.len() < at
        || target.len() - at < size
    {
        return false;
    }
    // A loop, and no `copy_from_slice`: that is a call of memcpy, which an archive for C would need from outside.
    for i in 0..size {
        target[at + i] = source[start + i];
    }
    true
}
