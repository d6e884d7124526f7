// How a call ends: its outcome, its work slices cleared, and its record.
ghost use Rattle.std.specs.Prelude.{◌≡◌};
ghost use Rattle.lists.specs.Zeros.{zeros};

pub(crate) fn clear_four(a: &mut [u32], b: &mut [u32], c: &mut [u32], d: &mut [u32])
    ensures { (a.new ≡ zeros a.old) × (b.new ≡ zeros b.old) × (c.new ≡ zeros c.old) × (d.new ≡ zeros d.old) }
{
    lists::fill(a, 0);
    lists::fill(b, 0);
    lists::fill(c, 0);
    lists::fill(d, 0);
}
