// Slices filled and written. The laws of lists that the other crates use stand in specs/ and proofs/.
// A slice with a place or a count: it is lent by the caller, in C too, as `record` says.
#![tactic(auto)]

ghost use Rattle.std.specs.Prelude.{◌≡◌, ◌+◌, ◌≤◌, length, replicate};
ghost use Rattle.lists.specs.Put.{put};

// Every element becomes x. The library's `fill` clones, and nothing tells of a T that is Copy that its clone is the same.
pub fn fill<T: Copy>(s: &mut [T], x: T)
    ensures { s.new ≡ replicate (length s.old) x }
{
    for e in s.iter_mut() {
        *e = x;
    }
}

// The bytes of a text, from index `at` on.
// The library's `copy_from_slice` ends in `memmove`, which a caller in C without a C library would have to bring.
pub fn put_bytes(out: &mut [u8], at: usize, text: &[u8])
    requires { at + length text.now ≤ length out.old }
    ensures { out.new ≡ put out.old at text.now }
{
    for j in 0..text.len() {
        out[at + j] = text[j];
    }
}
