// A plane in a slice of numbers: 64 lengths of rows, then 64 places a row.
// The slice of a plane is lent by the caller, in C too: its numbers and its size are fixed.
#![tactic(auto)]

pub mod rects;
pub mod turning;

ghost use Rattle.std.specs.Prelude.{◌≡◌, [], ◌∷◌, ◌++◌, ◌+◌, ◌*◌, ◌≤◌, ◌<◌, length};
ghost use Rattle.model.specs.Cells.{Small};
ghost use Rattle.model.specs.Limits.{plane_rows, plane_cells, plane_size};
ghost use Rattle.cells.specs.Spans.{offset_at, length_at, text_at};
ghost use Rattle.cells.specs.Plane.{cells_in, KeptBefore};

pub mod place;
pub mod plane;
pub mod plane_writer;
pub mod text_plane;
pub mod texts;

use model::Cell;
use model::limits::{PLANE_CELLS, PLANE_ROWS};

// Puts a cell behind the first i of a row; nothing is asked of the other rows.
pub fn put_cell(plane: &mut [u32], row: usize, i: usize, c: Cell)
    requires { (row < plane_rows) × (i < plane_cells) × (plane_size ≤ length plane.old) × Small c }
    ensures cells { cells_in plane.new row (i + 1) ≡ cells_in plane.old row i ++ (c ∷ []) }
    ensures before { KeptBefore plane.old plane.new row }
{
    plane[PLANE_ROWS + row * PLANE_CELLS + i] = c.number();
}

// The text of region k; nothing is asked of the other texts.
pub fn text_at<'a, 'b>(bytes: &'a [u8], spans: &'b [u32], k: usize) -> &'a [u8]
    requires { (k * 2 + 2 ≤ length spans.now) × (offset_at spans.now k + length_at spans.now k ≤ length bytes.now) }
    ensures { result.now ≡ text_at bytes.now spans.now k }
{
    let from = spans[k * 2] as usize;
    let to = from + spans[k * 2 + 1] as usize;
    &bytes[from..to]
}
