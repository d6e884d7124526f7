// The clause rules on an upright sheet: every refusal in its order, and where everything stands.
#![tactic(auto)]

pub mod allowed;
pub mod cell_tests;
pub mod layouts;
pub mod passes;

ghost use Rattle.std.specs.Prelude.{◌≡◌, ◌+◌, ◌≤◌, ◌<◌};
ghost use Rattle.model.specs.Limits.{plane_rows, plane_cells};
ghost use Rattle.cells.specs.Places.{SpotWithin};
ghost use Rattle.cells.specs.Slices.{plane_of};
ghost use Rattle.clauses.specs.cell_tests.SheetCells.{width_of};
ghost use Rattle.clauses.specs.Clauses.{outputs_end};
ghost use Rattle.clauses.specs.Shape.{notes_at, inputs_fine, clauses_at, shape_of, sizes_of, checked_shape};
ghost use Rattle.clauses.specs.Told.{SpotInColumn, NotesFit, ShapeFits, ShapedFits};

use crate::layouts::Layout;
use cells::place::Place;
use cells::plane::Plane;
use model::{Cell, Refusal};

// How many annotations there are, and the column and the row where their entries start.
#[derive(Clone, Copy)]
pub struct Notes {
    pub count: usize,
    pub col: usize,
    pub row: usize,
}

// The cells of row 0.
fn width(plane: Plane) -> usize
    ensures { (result ≡ width_of (plane_of plane.entry) 0) × (result ≤ plane_cells) }
{
    if plane.rows == 0 {
        return 0;
    }
    plane.width(0)
}

// The annotations right of a crossing.
fn notes_behind(plane: Plane, spot: Place) -> Result<Notes, Refusal>
    requires { (spot.row < plane.rows) × (spot.col ≤ plane_cells) }
    ensures notes { result ≡ notes_at (plane_of plane.entry) (Some spot) }
    ensures fit { NotesFit result plane.entry.rows spot.col }
{
    let w = width(plane);
    if w <= spot.col {
        return Err(Refusal::PlaneMalformed);
    }
    let col = spot.col + 1;
    let row = spot.row + 1;
    let count = w - col;
    crate::passes::pass_row(plane, 0, col, count)?;
    crate::passes::pass_rows(plane, row, col, count)?;
    Ok(Notes { count, col, row })
}

// The annotations, where a crossing in column c stands before them.
fn notes_at(plane: Plane, spot: Option<Place>, c: usize) -> Result<Notes, Refusal>
    requires { SpotInColumn spot plane.rows c × (c ≤ plane_cells) }
    ensures notes { result ≡ notes_at (plane_of plane.entry) spot }
    ensures fit { NotesFit result plane.entry.rows c }
{
    match spot {
        Some(p) => notes_behind(plane, p),
        None => Ok(Notes {
            count: 0,
            col: 0,
            row: plane.rows,
        }),
    }
}

// Where everything stands on an upright sheet of h = height clause rows.
// `allowed` is a fact of the sheet: no value hangs on it.
#[derive(Clone, Copy)]
pub struct Shape {
    pub inputs: usize,
    pub outputs: usize,
    pub height: usize,
    pub allowed: bool,
    pub layout: Layout,
    pub notes: Notes,
}

// `values` is a fact of the sheet.
// The cells of n inputs under h clause rows, with allowed values or without.
fn pass_inputs(plane: Plane, n: usize, h: usize, values: bool) -> Result<(), Refusal>
    requires { (n ≤ plane_cells) × (1 ≤ h) × (h < plane.rows) }
    ensures { result ≡ inputs_fine (plane_of plane.entry) n h values }
{
    crate::passes::pass_row(plane, 0, 0, n)?;
    if values {
        crate::passes::pass_row(plane, h - 1, 0, n)?;
    }
    crate::passes::pass_rows(plane, h + 1, 0, n)
}

// The shape of n inputs and m outputs under h clause rows.
fn clauses_at(
    plane: Plane,
    n: usize,
    m: usize,
    h: usize,
    notes: Option<Place>,
) -> Result<Shape, Refusal>
    requires { (n + 1 + m ≤ plane_cells) × (h < plane.rows) × SpotInColumn notes plane.rows (n + 1 + m) }
    ensures shape { result ≡ clauses_at (plane_of plane.entry) n m h notes }
    ensures fits { ShapedFits result plane.entry.rows 0 }
{
    let values = crate::allowed::allowed(plane, n, m, h)?;
    pass_inputs(plane, n, h, values)?;
    let layout = crate::layouts::lay_out(plane, n + 1, m, h, values)?;
    crate::passes::pass_rows(plane, h + 1, n + 1, m)?;
    let a = notes_at(plane, notes, n + 1 + m)?;
    Ok(Shape {
        inputs: n,
        outputs: m,
        height: h,
        allowed: values,
        layout,
        notes: a,
    })
}

// Where the outputs end.
fn outputs_end(plane: Plane, notes: Option<Place>) -> usize
    requires { SpotWithin notes plane.rows }
    ensures end { result ≡ outputs_end (plane_of plane.entry) notes }
    ensures within { (result ≤ plane_cells) × SpotInColumn notes plane.entry.rows result }
{
    match notes {
        Some(p) => p.col,
        None => width(plane),
    }
}

// The shape between the main crossing and the annotations.
fn shape_of(plane: Plane, main: Option<Place>, notes: Option<Place>) -> Result<Shape, Refusal>
    requires { SpotWithin main plane.rows × SpotWithin notes plane.rows }
    ensures shape { result ≡ shape_of (plane_of plane.entry) main notes }
    ensures fits { ShapedFits result plane.entry.rows 0 }
{
    let p = main.ok_or(Refusal::NoMainCrossing)?;
    let e = outputs_end(plane, notes);
    if e <= p.col {
        return Err(Refusal::PlaneMalformed);
    }
    clauses_at(plane, p.col, e - (p.col + 1), p.row, notes)
}

// Whether a sheet of so many rows has an entry for each rule number.
fn pass_sizes(rows: usize, s: Shape, rules: u64) -> Result<(), Refusal>
    requires { ShapeFits s rows 0 × (rows ≤ plane_rows) }
    ensures sizes { result ≡ sizes_of rows rules s }
    ensures rules { result ≡ Ok tt → ShapeFits s rows rules }
{
    if (rows - (s.height + 1)) as u64 != rules {
        return Err(Refusal::InvalidSize(8));
    }
    let a = s.notes;
    if 0 < a.count && (rows - a.row) as u64 != rules {
        return Err(Refusal::InvalidSize(12));
    }
    Ok(())
}

// The shape of an upright sheet that has so many rule numbers, or why it is refused.
pub fn checked_shape(plane: Plane, rules: u64) -> Result<Shape, Refusal>
    ensures shape { result ≡ checked_shape (plane_of plane.entry) rules }
    ensures fits { ShapedFits result plane.entry.rows rules }
{
    let main = plane.spot_of(Cell::MainDoubleCrossing);
    let notes = plane.spot_of(Cell::HorizontalDoubleCrossing);
    let s = shape_of(plane, main, notes)?;
    pass_sizes(plane.rows, s, rules)?;
    Ok(s)
}
