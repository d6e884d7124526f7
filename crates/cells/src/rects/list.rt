// Rects that a slice of numbers holds, four each.
ghost use Rattle.std.specs.Prelude.{◌≡◌, ◌*◌, ◌≤◌, length};

use model::Rect;

// The first rects of a slice.
#[derive(Clone, Copy)]
pub struct Rects<'a> {
    pub numbers: &'a [u32],
    pub count: usize,
    pub ghost held: { count * 4 ≤ length numbers.now },
}

impl<'a> Rects<'a> {
    ghost use Rattle.std.specs.Prelude.{◌<◌};
    ghost use Rattle.cells.specs.rects.Rects.{rect_at};

    // Rect k.
    pub fn at(self, k: usize) -> Rect
        requires { k < self.count }
        ensures { result ≡ rect_at self.entry.numbers.now k }
    {
        let n = self.numbers;
        let p = k * 4;
        rect_of(n[p], n[p + 1], n[p + 2], n[p + 3])
    }
}

// The rect of four numbers.
fn rect_of(left: u32, top: u32, right: u32, bottom: u32) -> Rect
    ensures { result ≡ record { left = left; top = top; right = right; bottom = bottom } }
{
    Rect {
        left: left as usize,
        top: top as usize,
        right: right as usize,
        bottom: bottom as usize,
    }
}
