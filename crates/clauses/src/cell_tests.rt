// The regions of the cells of an upright sheet, and tests on them.
// The n columns from x on stay two numbers, here and above: their sum is at most 128 here, and at most 64 in `allowed`,
// which reads the slice, so one fact of a struct would ask more than some callers have to know.
ghost use Rattle.std.specs.Prelude.{◌≡◌, ◌+◌, ◌≤◌, ◌<◌};
ghost use Rattle.model.specs.Limits.{plane_rows};
ghost use Rattle.cells.specs.Slices.{plane_of};
ghost use Rattle.clauses.specs.cell_tests.SheetCells.{region_at, column_is, columns_are};

use cells::plane::Plane;
use model::Refusal;

// The region of the cell in row y, column x.
pub fn region_at(plane: Plane, y: usize, x: usize) -> Result<usize, Refusal>
    ensures { result ≡ region_at (plane_of plane.entry) y x }
{
    if plane.rows <= y || plane.width(y) <= x {
        return Err(Refusal::CellOutOfRange(y, x));
    }
    plane
        .cell(y, x)
        .region()
        .ok_or(Refusal::CellNotRegion(y, x))
}

// `joined` is what is asked, a value that the answer is compared with.
// Whether the cells of rows top and top + 1 in column x are of one region (joined), or of two.
pub(crate) fn column_is(plane: Plane, joined: bool, top: usize, x: usize) -> Result<bool, Refusal>
    requires { top < plane_rows }
    ensures { result ≡ column_is joined (plane_of plane.entry) top x }
{
    let a = region_at(plane, top, x)?;
    let b = region_at(plane, top + 1, x)?;
    if a == b {
        return Ok(joined);
    }
    Ok(!joined)
}

// So in each of the n columns from x on.
pub(crate) fn columns_are(
    plane: Plane,
    joined: bool,
    top: usize,
    x: usize,
    n: usize,
) -> Result<bool, Refusal>
    requires { (top < plane_rows) × (x + n ≤ 128) }
    ensures { result ≡ columns_are joined (plane_of plane.entry) top x n }
{
    for i in 0..n {
        if !column_is(plane, joined, top, x + i)? {
            return Ok(false);
        }
    }
    Ok(true)
}
