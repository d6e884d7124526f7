// The frames of GRID with their numbers.
ghost use Rattle.std.specs.Prelude.{◌*◌, ◌≤◌, length};
ghost use Rattle.model.specs.Limits.{region_count};

use frames::outline::Outline;
use model::layer::Layer;

// The outline of a drawing and its GRID, with the number of each frame at the place where it starts: that of the first
// of `count` regions that contains it.
#[derive(Clone, Copy)]
pub struct NumberedGrid<'a> {
    pub outline: Outline,
    pub grid: Layer<'a>,
    pub found: &'a [u32],
    pub count: usize,
    pub ghost few: { count ≤ region_count },
    pub ghost numbers: { grid.height * grid.width ≤ length found.now },
}
