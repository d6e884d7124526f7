// Cells of an upright sheet that are all regions: every refusal in its order.
// x and n stay two numbers: `cell_tests` says why.
ghost use Rattle.std.specs.Prelude.{◌≡◌, ◌+◌, ◌≤◌};
ghost use Rattle.cells.specs.Slices.{plane_of};
ghost use Rattle.clauses.specs.passes.Passes.{fine_row, fine_rows};

use cells::plane::Plane;
use model::Refusal;

// The n cells of row y from column x on.
pub(crate) fn pass_row(plane: Plane, y: usize, x: usize, n: usize) -> Result<(), Refusal>
    requires { x + n ≤ 128 }
    ensures { result ≡ fine_row (plane_of plane.entry) y x n }
{
    for i in 0..n {
        crate::cell_tests::region_at(plane, y, x + i)?;
    }
    Ok(())
}

// The n cells from column x on of each row from y on, row by row.
pub(crate) fn pass_rows(plane: Plane, y: usize, x: usize, n: usize) -> Result<(), Refusal>
    requires { (x + n ≤ 128) × (y ≤ 128) }
    ensures { result ≡ fine_rows (plane_of plane.entry) y x n }
{
    for k in y..plane.rows {
        pass_row(plane, k, x, n)?;
    }
    Ok(())
}
