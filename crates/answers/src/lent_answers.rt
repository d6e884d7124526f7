// What is printed for the lists of a lent plane in a text: its upright sheet, or its record.
ghost use Rattle.std.specs.Prelude.{◌+◌, ◌≤◌};
ghost use Rattle.arrayvec.specs.ArrayVec.{array_vec_len};
ghost use Rattle.print.specs.Decimal.{Written};
ghost use Rattle.answers.specs.lent_lists.Lists.{lent_of};
ghost use Rattle.answers.specs.lines.Room.{line_bytes};
ghost use Rattle.answers.specs.lent_answers.Lines.{lines_by};

use crate::lent_lists::six_lists::Lists;
use crate::lent_lists::{PART_MOST, REGION_MOST, ROW_MOST};
use arrayvec::ArrayVec;
use plane::lent::Lent;

// What is asked of a lent plane.
// No function to call: the check does not cover a bound `Fn` that names a const parameter, as the capacity of `out`.
#[derive(Clone, Copy)]
pub enum Asked {
    Upright,
    Record,
}

// The answer to the lists of a lent plane: its upright sheet, its record, or why there is none.
pub fn put_lent<const N: usize>(out: &mut ArrayVec<u8, N>, asked: Asked, l: Lists)
    requires { array_vec_len out.old + line_bytes ≤ N }
    ensures { Written out.old.items out.new.items (lines_by asked (lent_of l.entry)) line_bytes }
{
    let mut rows: ArrayVec<u32, ROW_MOST> = ArrayVec::new();
    let mut regions: ArrayVec<u32, REGION_MOST> = ArrayVec::new();
    let mut offsets: ArrayVec<u32, PART_MOST> = ArrayVec::new();
    let mut sizes: ArrayVec<u32, PART_MOST> = ArrayVec::new();
    crate::lent_lists::widen(l.rows, &mut rows);
    crate::lent_lists::widen(l.regions, &mut regions);
    crate::lent_lists::widen(l.offsets, &mut offsets);
    crate::lent_lists::widen(l.sizes, &mut sizes);
    let plane = Lent {
        rows: rows.as_slice(),
        kinds: l.kinds,
        regions: regions.as_slice(),
        offsets: offsets.as_slice(),
        sizes: sizes.as_slice(),
        bytes: l.bytes,
    };
    match asked {
        Asked::Upright => crate::put_upright_sheet(out, plane),
        Asked::Record => reports::lent_reports::put_lent_plane(out, plane),
    }
}
