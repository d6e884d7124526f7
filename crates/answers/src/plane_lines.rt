// Planes and the upright sheet as the judge of the Rust prints them.
ghost use Rattle.std.specs.Prelude.{◌∷◌, ◌+◌, ◌≤◌, ◌<◌};
ghost use Rattle.arrayvec.specs.ArrayVec.{array_vec_len};
ghost use Rattle.model.specs.Cells.{cell_number};
ghost use Rattle.model.specs.Limits.{plane_rows, plane_cells};
ghost use Rattle.cells.specs.Plane.{cell_at, row_in};
ghost use Rattle.cells.specs.Slices.{plane_of};
ghost use Rattle.print.specs.Decimal.{decimal, Written};
ghost use Rattle.answers.specs.plane_lines.Planes.{cells_line, plane_lines, cells_bytes, plane_bytes, upright_lines, upright_bytes};

use arrayvec::ArrayVec;
use cells::plane::Plane;

// A blank and the number of cell i of a row.
fn put_cell<const N: usize>(out: &mut ArrayVec<u8, N>, plane: Plane, row: usize, i: usize)
    requires { (array_vec_len out.old + 21 ≤ N) × (row < plane_rows) × (i < plane_cells) }
    ensures { Written out.old.items out.new.items (0x20 ∷ decimal (cell_number (cell_at plane.entry.cells.now row i))) 21 }
{
    print::put_behind(out, plane.cell(row, i).number() as u64);
}

// The cells of a row, and a line feed.
fn put_cells<const N: usize>(out: &mut ArrayVec<u8, N>, plane: Plane, row: usize)
    requires { (array_vec_len out.old + cells_bytes ≤ N) × (row < plane.rows) }
    ensures { Written out.old.items out.new.items (cells_line (row_in plane.entry.cells.now row)) cells_bytes }
{
    let count = plane.width(row);
    print::put_number(out, count as u64);
    for i in 0..count {
        put_cell(out, plane, row, i);
    }
    out.push(b'\n');
}

// A plane.
pub(crate) fn put_plane<const N: usize>(out: &mut ArrayVec<u8, N>, plane: Plane)
    requires { array_vec_len out.old + plane_bytes ≤ N }
    ensures { Written out.old.items out.new.items (plane_lines (plane_of plane.entry)) plane_bytes }
{
    print::put_count(out, b"plane ", plane.rows);
    for row in 0..plane.rows {
        put_cells(out, plane, row);
    }
}

// The numbers of an upright sheet, which may be any (the enums would ask more of a caller), and its plane.
pub(crate) fn put_upright<const N: usize>(
    out: &mut ArrayVec<u8, N>,
    orientation: u32,
    policy: u32,
    rules: u64,
    plane: Plane,
)
    requires { array_vec_len out.old + upright_bytes ≤ N }
    ensures { Written out.old.items out.new.items (upright_lines orientation policy rules (plane_of plane.entry)) upright_bytes }
{
    print::put_three(out, b"upright ", orientation as u64, policy as u64, rules);
    put_plane(out, plane);
}
