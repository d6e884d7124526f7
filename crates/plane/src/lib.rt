// The upright sheet of a plane, or of a lent one, with its hit policy and its rule count.
#![tactic(auto)]

pub mod hit_policies;
pub mod lent;
pub mod numerals;
pub mod placement;
pub mod rule_numbers;

ghost use Rattle.std.specs.Prelude.{◌≡◌, ◌≤◌, length};
ghost use Rattle.model.specs.Limits.{plane_size};
ghost use Rattle.cells.specs.Slices.{plane_of, text_of};
ghost use Rattle.plane.specs.lent.Lent.{lists_of};
ghost use Rattle.plane.specs.LentSheet.{lent_sheet, WorkRoom};
ghost use Rattle.plane.specs.Sheet.{stated_sheet};
ghost use Rattle.plane.specs.Stated.{stated_in, StatedHeld};

use crate::lent::Lent;
use cells::plane::Plane;
use cells::text_plane::TextPlane;
use cells::texts::Texts;
use model::{HitPolicy, Orientation, Refusal};

// Which way a sheet is laid out, its hit policy, how many rules it has, and the rows of its upright sheet.
// Flat, and no field of `Oriented`: every reader of the first three would name it on the way.
#[derive(Clone, Copy)]
pub struct Stated {
    pub orientation: Orientation,
    pub policy: HitPolicy,
    pub rules: u64,
    pub rows: usize,
}

// The upright sheet of a plane, into `out`.
pub fn upright_sheet(sheet: TextPlane, out: &mut [u32]) -> Result<Stated, Refusal>
    requires { plane_size ≤ length out.old }
    ensures sheet { stated_in result out.new ≡ stated_sheet (text_of sheet.entry.texts) (plane_of sheet.entry.plane) }
    ensures held { StatedHeld result out.new sheet.entry.texts.bytes.now sheet.entry.texts.spans.now sheet.entry.texts.count }
{
    let o = crate::placement::orient(sheet)?;
    let rows = cells::turning::upright(o.orientation, sheet.plane, out)?;
    Ok(Stated {
        orientation: o.orientation,
        policy: o.policy,
        rules: o.rules,
        rows,
    })
}

// The three work slices are lent side by side, as the C interface lends them: nothing is allocated here.
// What a lent plane states before the clause rules; the upright sheet goes into `out`.
pub fn lent_sheet(
    l: Lent,
    plane: &mut [u32],
    spans: &mut [u32],
    out: &mut [u32],
) -> Result<Stated, Refusal>
    requires { WorkRoom plane.old spans.old out.old }
    ensures sheet { stated_in result out.new ≡ lent_sheet (lists_of l.entry) }
    ensures held { StatedHeld result out.new l.entry.bytes.now spans.new (length l.entry.offsets.now) }
{
    let rows = crate::lent::load(l, plane, spans)?;
    let sheet = TextPlane {
        plane: Plane { cells: plane, rows },
        texts: Texts {
            bytes: l.bytes,
            spans,
            count: l.offsets.len(),
        },
    };
    upright_sheet(sheet, out)
}
