// A line of the body.
ghost use Rattle.std.specs.Prelude.{◌≡◌, ◌+◌, ◌*◌, ◌<◌, ◌^◌};

// Its first place, the places between two of its characters, how many it has, and how far from the canvas's side it starts.
#[derive(Clone, Copy)]
pub struct Line {
    pub base: usize,
    pub stride: usize,
    pub count: usize,
    pub off: usize,
    pub ghost fits: { off + count < 2 ^ 64 },
}

impl Line {
    // Where its kth character stands.
    pub(crate) fn place(self, k: usize) -> usize
        requires { self.base + k * self.stride < 2 ^ 64 }
        ensures { result ≡ self.base + k * self.stride }
    {
        self.base + k * self.stride
    }
}
