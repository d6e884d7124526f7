// What is known of the rows so far.
ghost use Rattle.std.specs.Prelude.{◌≤◌};
ghost use Rattle.model.specs.Limits.{plane_cells};

use crate::plane_cells::Doubles;

// The length of the last row, and the columns of the double lines.
#[derive(Clone, Copy)]
pub struct PlaneSofar {
    pub width: usize,
    pub doubles: Doubles,
    pub ghost few: { width ≤ plane_cells },
}
