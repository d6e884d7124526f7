// The plane step: from the frames of GRID, the regions and the crossings to the plane.
pub mod numbers;

ghost use Rattle.std.specs.Prelude.{true, ◌≡◌, [], ◌*◌, ◌≤◌, ◌<◌, length};
ghost use Rattle.lists.specs.Picture.{pic};
ghost use Rattle.model.specs.Layers.{picture_of};
ghost use Rattle.model.specs.Limits.{plane_size, region_count};
ghost use Rattle.cells.specs.Written.{plane_written, SameSlice, Kept};
ghost use Rattle.frames.specs.regions.Corners.{NextCorner};
ghost use Rattle.cells.specs.rects.Rects.{rects_in};
ghost use Rattle.frames.specs.regions.Regions.{is_corner};
ghost use Rattle.walks.specs.Frame.{frame_of, Place};
ghost use Rattle.walks.specs.Spots.{from_spot};
ghost use Rattle.walks.specs.Kinds.{grid};
ghost use Rattle.text_planes.specs.plane_cells.Made.{row_of, row_made, RowFit, RowFits};
ghost use Rattle.text_planes.specs.plane_rows.Made.{rows_of};
ghost use Rattle.text_planes.specs.step.PlaneStep.{add_cell, row_by, add_frames, add_grid_row, plane_of};
ghost use Rattle.text_planes.specs.step.Made.{no_region, rows_made, plane_made, MadeFits, frames_in, OverNumbered};

use crate::plane_cells::{Doubles, RowSofar};
use crate::plane_rows::line;
use crate::plane_rows::sofar::PlaneSofar;
use cells::plane_writer::PlaneWriter;
use cells::rects::list::Rects;
use frames::outline::Outline;
use model::layer::Layer;
use model::{Point, Refusal};
use numbers::NumberedGrid;
use walks::spot::Spot;

// Why the frame that starts at a place has no region.
fn why_none(spot: Spot) -> Refusal
    ensures { result ≡ no_region (from_spot (frame_of grid) spot.entry) }
{
    match frames::recognize_rectangle(spot) {
        Ok(f) => Refusal::RegionNotFound(f.left, f.top),
        Err(r) => r,
    }
}

// The cells of the frame that starts at a place: one of the grid that `n` has, so no `Spot`, which would bring its own.
fn add_frame(
    n: NumberedGrid,
    at: Point,
    plane: &mut PlaneWriter,
    s: RowSofar,
) -> Result<RowSofar, Refusal>
    requires { Place n.grid.width n.grid.height at.x at.y × RowFit s plane.old.rows × (is_corner (picture_of n.grid at.x at.y) ≡ true) }
    ensures made { OverNumbered n.entry (λ rs. row_made result plane.new ≡ add_cell n.entry.outline (frames_in n.entry) rs plane.old.rows at.y at.x (row_of s plane.old)) }
    ensures fits { RowFits result plane.new.rows }
    ensures kept { Kept plane.old plane.new }
{
    let k = n.found[at.y * n.grid.width + at.x] as usize;
    if k < n.count {
        return crate::plane_cells::add_cells(n.outline, at.x, k, plane.cells, plane.rows, s);
    }
    let spot = Spot { layer: n.grid, at };
    Err(why_none(spot))
}

// The column of the first corner of row y from column x on, or the width.
fn corner_in_row(layer: Layer, x: usize, y: usize) -> usize
    requires { (x ≤ layer.width) × (y < layer.height) }
    ensures { NextCorner (λ i. is_corner (pic layer.entry.width layer.entry.codes.now i y)) layer.entry.width x result }
{
    let start = y * layer.width;
    frames::regions::next_corner(&layer.codes[..start + layer.width], start + x) - start
}

// The frames that start in row y, as the next row of the plane, not yet ended.
fn make_row(
    n: NumberedGrid,
    y: usize,
    plane: &mut PlaneWriter,
    above: PlaneSofar,
) -> Result<RowSofar, Refusal>
    requires { y < n.grid.height }
    ensures made { OverNumbered n.entry (λ rs. row_made result plane.new ≡ row_by n.entry.outline (frames_in n.entry) rs (picture_of n.entry.grid) n.entry.grid.width plane.old.rows y (record { cells = []; output = above.doubles.output; annotation = above.doubles.annotation })) }
    ensures fits { RowFits result plane.new.rows }
    ensures kept { Kept plane.old plane.new }
{
    let w = n.grid.width;
    let mut x = corner_in_row(n.grid, 0, y);
    let mut s = RowSofar {
        cells: 0,
        doubles: above.doubles,
    };
    // No `for`: each turn goes on to the next corner.
    while x < w {
        s = add_frame(n, Point { x, y }, plane, s)?;
        x = corner_in_row(n.grid, x + 1, y);
    }
    Ok(s)
}

// The row of the frames that start in row y.
fn add_frames(
    n: NumberedGrid,
    y: usize,
    plane: &mut PlaneWriter,
    s: PlaneSofar,
) -> Result<PlaneSofar, Refusal>
    requires { y < n.grid.height }
    ensures made { OverNumbered n.entry (λ rs. rows_made result plane.new ≡ add_frames n.entry.outline (frames_in n.entry) rs (picture_of n.entry.grid) n.entry.grid.width y (rows_of s plane.old)) }
    ensures same { SameSlice plane.old plane.new }
{
    let t = make_row(n, y, plane, s)?;
    let width = t.cells;
    if width == 0 {
        return Ok(s);
    }
    plane.end_row(width);
    Ok(PlaneSofar {
        width,
        doubles: t.doubles,
    })
}

// Row y of GRID: the line rows that stand there, and the row of its frames.
fn add_grid_row(
    n: NumberedGrid,
    y: usize,
    plane: &mut PlaneWriter,
    s: PlaneSofar,
) -> Result<PlaneSofar, Refusal>
    requires { y < n.grid.height }
    ensures made { OverNumbered n.entry (λ rs. rows_made result plane.new ≡ add_grid_row n.entry.outline (frames_in n.entry) rs (picture_of n.entry.grid) n.entry.grid.width y (rows_of s plane.old)) }
    ensures same { SameSlice plane.old plane.new }
{
    let o = n.outline;
    if y == o.y {
        crate::plane_rows::add_line(plane, s, line::MAIN)?;
    }
    if crate::plane_cells::is_at(o.below, y) {
        crate::plane_rows::add_line(plane, s, line::ANNOTATIONS)?;
    }
    add_frames(n, y, plane, s)
}

// The writer is made by the caller: tried here, and what its slice holds behind the loop was not proved.
// The plane of GRID, whose frames are numbered.
fn add_grid_rows(n: NumberedGrid, plane: &mut PlaneWriter) -> Result<(), Refusal>
    requires { plane.old.rows ≡ 0 }
    ensures made { OverNumbered n.entry (λ rs. plane_written result plane.new ≡ plane_of n.entry.outline rs (picture_of n.entry.grid) n.entry.grid.width n.entry.grid.height) }
    ensures same { SameSlice plane.old plane.new }
{
    let mut s = PlaneSofar {
        width: 0,
        doubles: Doubles {
            output: None,
            annotation: None,
        },
    };
    for y in 0..n.grid.height {
        s = add_grid_row(n, y, plane, s)?;
    }
    Ok(())
}

// The plane of a GRID layer, over the rects of its regions. The numbers of its frames are left in `found`.
pub fn make_plane(
    o: Outline,
    layer: Layer,
    rects: Rects,
    found: &mut [u32],
    plane: &mut [u32],
) -> Result<usize, Refusal>
    requires { (rects.count ≤ region_count) × (layer.height * layer.width ≤ length found.old) × (plane_size ≤ length plane.old) }
    ensures made { plane_made result plane.new ≡ plane_of o (rects_in rects.entry) (picture_of layer.entry) layer.entry.width layer.entry.height }
    ensures fits { MadeFits result plane.new }
{
    frames::lookup::number_frames(layer, rects, found);
    let n = NumberedGrid {
        outline: o,
        grid: layer,
        found,
        count: rects.count,
    };
    let mut writer = PlaneWriter {
        cells: plane,
        rows: 0,
    };
    add_grid_rows(n, &mut writer)?;
    Ok(writer.rows)
}
