// Rects in a slice of numbers, four each.
// The slice of the rects is lent by the caller, in C too: its numbers and its size are fixed.
ghost use Rattle.std.specs.Prelude.{◌≡◌, [], ◌∷◌, ◌++◌, ◌+◌, ◌*◌, ◌≤◌, length};
ghost use Rattle.cells.specs.rects.Rects.{rects_of, Small};

pub mod list;

use model::Rect;

// Rect n of a slice. No writer that holds the slice and n: whoever hands one on promises that it lends the same slice.
pub fn put_rect(rects: &mut [u32], n: usize, r: Rect)
    requires { (n * 4 + 4 ≤ length rects.old) × Small r }
    ensures { rects_of rects.new (n + 1) ≡ rects_of rects.old n ++ (r ∷ []) }
{
    let p = n * 4;
    rects[p] = r.left as u32;
    rects[p + 1] = r.top as u32;
    rects[p + 2] = r.right as u32;
    rects[p + 3] = r.bottom as u32;
}
