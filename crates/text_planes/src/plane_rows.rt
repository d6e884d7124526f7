// Line rows that are added to a plane.
ghost use Rattle.std.specs.Prelude.{◌≡◌, ◌<◌};
ghost use Rattle.lists.specs.Run.{build};
ghost use Rattle.model.specs.Cells.{Small};
ghost use Rattle.model.specs.Limits.{plane_rows};
ghost use Rattle.cells.specs.Written.{next_row, SameSlice, Kept};
ghost use Rattle.text_planes.specs.plane_rows.Rows.{add_line};
ghost use Rattle.text_planes.specs.plane_rows.Made.{rows_of, line_made, line_cell};

pub mod line;
pub mod sofar;

use crate::plane_cells::Doubles;
use cells::plane_writer::PlaneWriter;
use line::Line;
use model::limits::PLANE_ROWS;
use model::{Cell, Refusal};
use sofar::PlaneSofar;

// Cell i of a line row.
fn line_cell(l: Line, doubles: Doubles, i: usize) -> Cell
    ensures cell { result ≡ line_cell l.output l.annotation l.plain doubles.output doubles.annotation i }
    ensures small { Small result }
{
    if crate::plane_cells::is_at(doubles.output, i) {
        return l.output;
    }
    if crate::plane_cells::is_at(doubles.annotation, i) {
        return l.annotation;
    }
    l.plain
}

// A line row as long as the last row, not yet ended.
fn put_line(plane: &mut PlaneWriter, s: PlaneSofar, l: Line)
    requires { plane.old.rows < plane_rows }
    ensures cells { next_row plane.new s.width ≡ build s.width (line_cell l.output l.annotation l.plain s.doubles.output s.doubles.annotation) }
    ensures kept { Kept plane.old plane.new }
{
    for i in 0..s.width {
        let c = line_cell(l, s.doubles, i);
        plane.put_cell(i, c);
    }
}

// A line row more, as long as the last.
pub(crate) fn add_line(plane: &mut PlaneWriter, s: PlaneSofar, l: Line) -> Result<(), Refusal>
    ensures made { line_made result s plane.new ≡ add_line (line_cell l.output l.annotation l.plain s.doubles.output s.doubles.annotation) (rows_of s plane.old) }
    ensures same { SameSlice plane.old plane.new }
{
    if PLANE_ROWS <= plane.rows {
        return Err(Refusal::OverLimit);
    }
    put_line(plane, s, l);
    plane.end_row(s.width);
    Ok(())
}
