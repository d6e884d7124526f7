// A layer of a canvas.
ghost use Rattle.std.specs.Prelude.{◌*◌, ◌≤◌, length};

// The codes of a canvas's characters, row by row, with its columns and rows.
#[derive(Clone, Copy)]
pub struct Layer<'a> {
    pub codes: &'a [u32],
    pub width: usize,
    pub height: usize,
    pub ghost sized: { height * width ≤ length codes.now },
}
