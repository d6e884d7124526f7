// What is printed for a text of the value split and for a lent plane, as the judge of the Rust prints it.
#![tactic(auto)]

pub mod drawings;
pub mod lent_answers;
pub mod lent_lists;
pub mod lines;
pub mod plane_lines;
pub mod sketch;

ghost use Rattle.std.specs.Prelude.{◌+◌, ◌≤◌, length};
ghost use Rattle.model.specs.Limits.{text_bytes};
ghost use Rattle.model.specs.Policies.{policy_number, orientation_number};
ghost use Rattle.values.specs.utils.Split.{answered, Places};
ghost use Rattle.arrayvec.specs.ArrayVec.{array_vec_len};
ghost use Rattle.cells.specs.Plane.{plane_in, PlaneFits};
ghost use Rattle.print.specs.Decimal.{Written};
ghost use Rattle.answers.specs.plane_lines.Planes.{upright_lines, upright_bytes};
ghost use Rattle.answers.specs.lines.Room.{line_bytes};
ghost use Rattle.plane.specs.lent.Lent.{lists_of};
ghost use Rattle.answers.specs.SplitLines.{printed, split_line};
ghost use Rattle.answers.specs.LentLines.{lent_lines};

use arrayvec::ArrayVec;
use cells::plane::Plane;
use model::Refusal;
use plane::Stated;
use plane::lent::Lent;
use values::Rewritten;

// What the split answered.
fn put_split<const N: usize>(
    out: &mut ArrayVec<u8, N>,
    text: &[u8],
    scratch: &[u8],
    s: Result<Option<Rewritten>, Refusal>,
)
    requires { (array_vec_len out.old + line_bytes ≤ N) × (length text.now ≤ text_bytes) × (length scratch.now ≤ text_bytes) × Places s text.now scratch.now }
    ensures { Written out.old.items out.new.items (printed (answered s text.now scratch.now)) line_bytes }
{
    match s {
        Ok(None) => print::put_word(out, b"own\n"),
        Ok(Some(r)) => print::put_values(out, &scratch[0..r.bytes], &text[r.from..r.to]),
        Err(r) => print::put_refusal(out, r),
    }
}

// The line that answers a text.
pub fn put_split_line<const N: usize>(out: &mut ArrayVec<u8, N>, text: &[u8], scratch: &mut [u8])
    requires { (array_vec_len out.old + line_bytes ≤ N) × (length text.now ≤ text_bytes) × (length scratch.old ≤ text_bytes) }
    ensures { Written out.old.items out.new.items (split_line (length scratch.old) text.now) line_bytes }
{
    let s = values::utils::split_values(text, scratch);
    put_split(out, text, scratch, s);
}

// An upright sheet.
fn put_stated<const N: usize>(out: &mut ArrayVec<u8, N>, s: Stated, upright: &[u32])
    requires { (array_vec_len out.old + upright_bytes ≤ N) × PlaneFits upright.now s.rows }
    ensures { Written out.old.items out.new.items (upright_lines (orientation_number s.orientation) (policy_number s.policy) s.rules (plane_in upright.now s.rows)) upright_bytes }
{
    crate::plane_lines::put_upright(
        out,
        u32::from(s.orientation),
        u32::from(s.policy),
        s.rules,
        Plane {
            cells: upright,
            rows: s.rows,
        },
    );
}

// The upright sheet of a lent plane, or why there is none.
pub(crate) fn put_upright_sheet<const N: usize>(out: &mut ArrayVec<u8, N>, l: Lent)
    requires { array_vec_len out.old + upright_bytes ≤ N }
    ensures { Written out.old.items out.new.items (lent_lines (lists_of l.entry)) upright_bytes }
{
    // Work slices, as a caller in C lends them: nothing is allocated.
    let mut plane = [0u32; 4160];
    let mut spans = [0u32; 2048];
    let mut upright = [0u32; 4160];
    match plane::lent_sheet(l, &mut plane, &mut spans, &mut upright) {
        Ok(s) => put_stated(out, s, &upright),
        Err(r) => print::put_refusal(out, r),
    }
}
