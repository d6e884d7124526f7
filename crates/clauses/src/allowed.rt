// The tests on the cells of an upright sheet that tell whether its clauses have allowed values.
// x and n stay two numbers: `cell_tests` says why. n, m and h are the sizes that `clauses::Shape` holds once it is
// known: a struct of the three for these calls would be taken apart in each.
ghost use Rattle.std.specs.Prelude.{[], ◌≡◌, ◌+◌, ◌≤◌, ◌<◌};
ghost use Rattle.lists.specs.OneOf.{one_of};
ghost use Rattle.model.specs.Limits.{plane_rows, plane_cells};
ghost use Rattle.cells.specs.Slices.{plane_of};
ghost use Rattle.clauses.specs.allowed.Apart.{meet_row, all_apart};
ghost use Rattle.clauses.specs.allowed.Allowed.{allowed_by, allowed_two, allowed_three, allowed_of};
ghost use Rattle.clauses.specs.allowed.Met.{met, met_above, met_in};

use cells::plane::Plane;
use model::Refusal;
use model::limits::{PLANE_CELLS, PLANE_ROWS};

// The cells looked at have been passed as regions, so their numbers are compared alone: asked here, each kind would be
// read again in the innermost loop.
// Whether region a is among the n cells of row y from column x on.
fn is_among(plane: Plane, y: usize, x: usize, n: usize, a: usize) -> bool
    requires { (y < plane_rows) × (x + n ≤ plane_cells) }
    ensures { result ≡ one_of a (met plane.entry.cells.now y x n []) }
{
    for i in 0..n {
        if (plane.cells[PLANE_ROWS + y * PLANE_CELLS + (x + i)] / 8) as usize == a {
            return true;
        }
    }
    false
}

// Whether region a stands before the i-th of n cells of row y, or in the row above.
fn is_met(plane: Plane, y: usize, x: usize, n: usize, i: usize, a: usize) -> bool
    requires { (y < plane_rows) × (x + n ≤ plane_cells) × (i ≤ n) }
    ensures { result ≡ one_of a (met plane.entry.cells.now y x i (met_above plane.entry.cells.now y x n)) }
{
    if is_among(plane, y, x, i, a) {
        return true;
    }
    if 0 < y {
        return is_among(plane, y - 1, x, n, a);
    }
    false
}

// Whether no region stands twice in the n cells of row y from column x on and in those above them.
fn row_apart(plane: Plane, y: usize, x: usize, n: usize) -> Result<bool, Refusal>
    requires { (y < plane_rows) × (x + n ≤ plane_cells) }
    ensures { meet_row (plane_of plane.entry) y x n (met_above plane.entry.cells.now y x n) ≡ met_in result (met plane.entry.cells.now y x n (met_above plane.entry.cells.now y x n)) }
{
    for i in 0..n {
        let a = crate::cell_tests::region_at(plane, y, x + i)?;
        if is_met(plane, y, x, n, i, a) {
            return Ok(false);
        }
    }
    Ok(true)
}

// Whether no region stands twice in rows 0 and 1, in the n columns from x on.
fn two_apart(plane: Plane, x: usize, n: usize) -> Result<bool, Refusal>
    requires { x + n ≤ plane_cells }
    ensures { result ≡ all_apart (plane_of plane.entry) 2 x n }
{
    let t = row_apart(plane, 0, x, n)?;
    if t {
        return row_apart(plane, 1, x, n);
    }
    Ok(false)
}

// A table of facts, and no switch.
// Whether there are allowed values, by the five facts for two clause rows.
fn allowed_by(inputs: bool, has: bool, several: bool, outputs: bool, apart: bool) -> bool
    ensures { result ≡ allowed_by inputs has several outputs apart }
{
    if !inputs {
        return true;
    }
    if has {
        return false;
    }
    if !several {
        return false;
    }
    if outputs {
        return true;
    }
    apart
}

// With two clause rows.
fn allowed_two(plane: Plane, n: usize, m: usize) -> Result<bool, Refusal>
    requires { n + 1 + m ≤ plane_cells }
    ensures { result ≡ allowed_two (plane_of plane.entry) n m }
{
    let inputs = crate::cell_tests::columns_are(plane, true, 0, 0, n)?;
    let outputs = crate::cell_tests::columns_are(plane, true, 0, n + 1, m)?;
    let apart = two_apart(plane, n + 1, m)?;
    Ok(allowed_by(inputs, 0 < n, 1 < m, outputs, apart))
}

// With three clause rows.
fn allowed_three(plane: Plane, n: usize, m: usize) -> Result<bool, Refusal>
    requires { n + 1 + m ≤ plane_cells }
    ensures { result ≡ allowed_three (plane_of plane.entry) n m }
{
    if !crate::cell_tests::columns_are(plane, false, 1, 0, n)? {
        return Err(Refusal::InvalidInputExpressions);
    }
    if !crate::cell_tests::columns_are(plane, false, 1, n + 1, m)? {
        return Err(Refusal::InvalidOutputExpressions);
    }
    Ok(true)
}

// Whether n inputs and m outputs have allowed values under h clause rows.
pub fn allowed(plane: Plane, n: usize, m: usize, h: usize) -> Result<bool, Refusal>
    requires { n + 1 + m ≤ plane_cells }
    ensures { result ≡ allowed_of (plane_of plane.entry) n m h }
{
    if h == 1 {
        return Ok(false);
    }
    if h == 2 {
        return allowed_two(plane, n, m);
    }
    if h == 3 {
        return allowed_three(plane, n, m);
    }
    Err(Refusal::ClauseRows(h))
}
