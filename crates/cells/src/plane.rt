// A plane that a slice of numbers holds: 64 lengths of rows, then 64 places a row.
ghost use Rattle.cells.specs.Plane.{PlaneFits};

use crate::place::Place;
use model::Cell;
use model::limits::{PLANE_CELLS, PLANE_ROWS};

// The first rows of a slice, as a plane.
#[derive(Clone, Copy)]
pub struct Plane<'a> {
    pub cells: &'a [u32],
    pub rows: usize,
    pub ghost fits: { PlaneFits cells.now rows },
}

impl<'a> Plane<'a> {
    ghost use Rattle.std.specs.Prelude.{◌≡◌, ◌+◌, ◌<◌, get_or};
    ghost use Rattle.model.specs.Cells.{Small};
    ghost use Rattle.model.specs.Limits.{plane_rows, plane_cells};
    ghost use Rattle.cells.specs.Plane.{cell_at, row_in};
    ghost use Rattle.cells.specs.Places.{place_in_row, place_of, SpotWithin};
    ghost use Rattle.cells.specs.Slices.{plane_of};

    // Cell i of a row.
    pub fn cell(self, row: usize, i: usize) -> Cell
        requires { (row < plane_rows) × (i < plane_cells) }
        ensures cell { result ≡ cell_at self.entry.cells.now row i }
        ensures small { Small result }
    {
        Cell::from(self.cells[PLANE_ROWS + row * PLANE_CELLS + i])
    }

    // How many cells a row has.
    pub fn width(self, row: usize) -> usize
        requires { row < plane_rows }
        ensures { result ≡ get_or self.entry.cells.now row 0 }
    {
        self.cells[row] as usize
    }

    // The first cell of a kind in row y.
    fn spot_in_row(self, y: usize, kind: Cell) -> Option<Place>
        requires { y < self.rows }
        ensures spot { result ≡ place_in_row kind y 0 (row_in self.entry.cells.now y) }
        ensures within { SpotWithin result (y + 1) }
    {
        for x in 0..self.width(y) {
            if kind.is_same_kind(self.cell(y, x)) {
                return Some(Place { row: y, col: x });
            }
        }
        None
    }

    // The first cell of a kind, row by row.
    pub fn spot_of(self, kind: Cell) -> Option<Place>
        ensures spot { result ≡ place_of kind (plane_of self.entry) }
        ensures within { SpotWithin result self.entry.rows }
    {
        for y in 0..self.rows {
            let spot = self.spot_in_row(y, kind);
            if spot.is_some() {
                return spot;
            }
        }
        None
    }
}
