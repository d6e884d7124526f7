// A plane that is written row by row.
ghost use Rattle.cells.specs.Plane.{PlaneFits};

use model::Cell;

// The rows that are ended, and the slice that holds them and has room for more.
#[derive(Drop)]
pub struct PlaneWriter<'a> {
    pub cells: &'a mut [u32],
    pub rows: usize,
    pub ghost fits: { PlaneFits cells.now rows },
}

impl<'a> PlaneWriter<'a> {
    ghost use Rattle.std.specs.Prelude.{◌≡◌, [], ◌∷◌, ◌++◌, ◌+◌, ◌≤◌, ◌<◌};
    ghost use Rattle.model.specs.Cells.{Small};
    ghost use Rattle.model.specs.Limits.{plane_rows, plane_cells};
    ghost use Rattle.cells.specs.Written.{next_row, Kept, Ended};

    // Puts a cell behind the first i of the next row.
    pub fn put_cell(&mut self, i: usize, c: Cell)
        requires { (self.old.rows < plane_rows) × (i < plane_cells) × Small c }
        ensures cells { next_row self.new (i + 1) ≡ next_row self.old i ++ (c ∷ []) }
        ensures kept { Kept self.old self.new }
    {
        crate::put_cell(self.cells, self.rows, i, c);
    }

    // Ends the next row behind its first n cells.
    pub fn end_row(&mut self, n: usize)
        requires { (self.old.rows < plane_rows) × (n ≤ plane_cells) }
        ensures { Ended self.old self.new n }
    {
        self.cells[self.rows] = n as u32;
        self.rows += 1;
    }
}
