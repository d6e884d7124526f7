// The upright sheet of a plane, in a second slice.
ghost use Rattle.std.specs.Prelude.{map, ◌≡◌, ◌≤◌, ◌<◌, ◌-◌, length, get_or, drop};
ghost use Rattle.model.specs.Limits.{plane_rows, plane_cells, plane_size};
ghost use Rattle.cells.specs.Plane.{cell_at, row_in};
ghost use Rattle.cells.specs.Slices.{plane_of};
ghost use Rattle.cells.specs.Written.{next_row, plane_written, SameSlice, Kept, Holds};
ghost use Rattle.lists.specs.Run.{build};
ghost use Rattle.model.specs.Cells.{turned_cell};
ghost use Rattle.cells.specs.turning.Upright.{wide, pivot_of, upright_of};
ghost use Rattle.cells.specs.turning.Turned.{turned_in, TurnedFits};

use crate::plane::Plane;
use crate::plane_writer::PlaneWriter;
use model::{Orientation, Refusal};

// The cells of a row from the second on, as the next row of `out`, and how many there are.
fn copy_row(plane: Plane, row: usize, out: &mut PlaneWriter) -> usize
    requires { (out.old.rows < plane_rows) × (row < plane.rows) }
    ensures count { result ≡ get_or plane.entry.cells.now row 0 - 1 }
    ensures cells { next_row out.new result ≡ drop 1 (row_in plane.entry.cells.now row) }
    ensures kept { Kept out.old out.new }
{
    let n = plane.width(row).saturating_sub(1);
    for i in 0..n {
        out.put_cell(i, plane.cell(row, i + 1));
    }
    n
}

// A plane without its first column.
fn remove_first_column(plane: Plane, out: &mut PlaneWriter)
    requires { out.old.rows ≡ 0 }
    ensures { Holds out.old out.new (map (drop 1) (plane_of plane.entry)) }
{
    for row in 0..plane.rows {
        let count = copy_row(plane, row, out);
        out.end_row(count);
    }
}

// Column j of a plane, turned, as the next row of `out`.
fn turn_column(plane: Plane, j: usize, out: &mut PlaneWriter)
    requires { (out.old.rows < plane_rows) × (j < plane_cells) }
    ensures cells { next_row out.new plane.entry.rows ≡ build plane.entry.rows (λ i. turned_cell (cell_at plane.entry.cells.now i j)) }
    ensures kept { Kept out.old out.new }
{
    for i in 0..plane.rows {
        out.put_cell(i, plane.cell(i, j).turned());
    }
}

// The first w columns of a plane, turned.
fn turn_columns(plane: Plane, w: usize, out: &mut PlaneWriter)
    requires { (out.old.rows ≡ 0) × (w ≤ plane_cells) }
    ensures { Holds out.old out.new (build w (λ j. build plane.entry.rows (λ i. turned_cell (cell_at plane.entry.cells.now i j)))) }
{
    for j in 0..w {
        turn_column(plane, j, out);
        out.end_row(plane.rows);
    }
}

// Whether each row has at least w cells.
fn is_wide(plane: Plane, w: usize) -> bool
    ensures { result ≡ wide w (plane_of plane.entry) }
{
    for row in 0..plane.rows {
        if plane.width(row) < w {
            return false;
        }
    }
    true
}

// The columns of a plane as rows.
fn pivot(plane: Plane, out: &mut PlaneWriter) -> Result<(), Refusal>
    requires { out.old.rows ≡ 0 }
    ensures turned { plane_written result out.new ≡ pivot_of (plane_of plane.entry) }
    ensures same { SameSlice out.old out.new }
{
    if plane.rows == 0 {
        return Err(Refusal::PlaneMalformed);
    }
    let w = plane.width(0);
    if !is_wide(plane, w) {
        return Err(Refusal::PlaneMalformed);
    }
    turn_columns(plane, w, out);
    Ok(())
}

// The upright sheet of a plane, which has a row.
pub fn upright(o: Orientation, plane: Plane, out: &mut [u32]) -> Result<usize, Refusal>
    requires { (plane_size ≤ length out.old) × (0 < plane.rows) }
    ensures turned { turned_in result out.new ≡ upright_of o (plane_of plane.entry) }
    ensures fits { TurnedFits result out.new }
{
    // One writer for both ways: made in each of them, it would be ended in each too.
    let mut sheet = PlaneWriter {
        cells: out,
        rows: 0,
    };
    match o {
        Orientation::RulesAsRows => {
            remove_first_column(plane, &mut sheet);
            Ok(sheet.rows)
        }
        Orientation::RulesAsColumns => {
            let entries = Plane {
                cells: plane.cells,
                rows: plane.rows - 1,
            };
            pivot(entries, &mut sheet)?;
            Ok(sheet.rows)
        }
    }
}
