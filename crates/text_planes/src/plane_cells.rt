// Cells that are added to a row of a plane.
ghost use Rattle.std.specs.Prelude.{Some, ◌≡◌, ◌≤◌, ◌<◌, length};
ghost use Rattle.lists.specs.Choose.{choose};
ghost use Rattle.model.specs.Limits.{plane_size, region_count};
ghost use Rattle.cells.specs.Plane.{KeptBefore};
ghost use Rattle.text_planes.specs.plane_cells.Row.{is_at, with_cell, fitting};
ghost use Rattle.text_planes.specs.plane_cells.Made.{row_in, row_made_in, RowFit, RowFits};

use frames::outline::Outline;
use model::limits::{PLANE_CELLS, PLANE_ROWS};
use model::{Cell, Refusal};

// Whether a crossing stands at a column or row.
pub(crate) fn is_at(c: Option<usize>, x: usize) -> bool
    ensures { result ≡ is_at c x }
{
    c == Some(x)
}

// The columns of the double line before the outputs and of that before the annotations.
#[derive(Clone, Copy)]
pub struct Doubles {
    pub output: Option<usize>,
    pub annotation: Option<usize>,
}

// A row so far: how many cells it has, and the columns of the double lines.
#[derive(Clone, Copy)]
pub struct RowSofar {
    pub cells: usize,
    pub doubles: Doubles,
}

// The column of a double line: where it stands now, or where the last row that had it has it.
fn column_of(is_here: bool, column: usize, last: Option<usize>) -> Option<usize>
    ensures { result ≡ choose is_here (Some column) last }
{
    if is_here { Some(column) } else { last }
}

// The cell of a frame in column x, of a region, behind the double lines left of it.
pub(crate) fn add_cells(
    o: Outline,
    x: usize,
    region: usize,
    plane: &mut [u32],
    row: usize,
    s: RowSofar,
) -> Result<RowSofar, Refusal>
    requires { (region < region_count) × RowFit s row × (plane_size ≤ length plane.old) }
    ensures made { row_made_in result plane.new row ≡ fitting row (with_cell o x region (row_in s plane.old row)) }
    ensures fits { RowFits result row }
    ensures before { KeptBefore plane.old plane.new row }
{
    if PLANE_ROWS <= row {
        return Err(Refusal::OverLimit);
    }
    let is_output = x == o.x;
    let is_annotation = is_at(o.right, x);
    let from = s.cells;
    let a = from + usize::from(is_output);
    let b = a + usize::from(is_annotation);
    if PLANE_CELLS <= b {
        return Err(Refusal::OverLimit);
    }
    if is_output {
        cells::put_cell(plane, row, from, Cell::VerticalOutputDoubleLine);
    }
    if is_annotation {
        cells::put_cell(plane, row, a, Cell::VerticalAnnotationDoubleLine);
    }
    cells::put_cell(plane, row, b, Cell::Region(region as u32));
    let last = s.doubles;
    Ok(RowSofar {
        cells: b + 1,
        doubles: Doubles {
            output: column_of(is_output, from, last.output),
            annotation: column_of(is_annotation, a, last.annotation),
        },
    })
}
