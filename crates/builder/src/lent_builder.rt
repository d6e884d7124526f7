// The table from a lent plane: its record. The work slices stand side by side, as `builder` says.
ghost use Rattle.std.specs.Prelude.{[], ◌∷◌, ◌≡◌};
ghost use Rattle.builder.specs.room.Room.{Roomy};
ghost use Rattle.plane.specs.lent.Lent.{lists_of};
ghost use Rattle.builder.specs.lent_builder.LentEnd.{lent_sizes, lent_end};

use model::Refusal;
use plane::lent::Lent;

// The least lengths of the work slices, in the order in which they are lent.
const LENT_SIZES: [usize; 4] = [4160, 2048, 4160, 12480];

// The record of a lent plane; then the work slices are cleared.
fn lent_cleared(
    l: Lent,
    plane: &mut [u32],
    spans: &mut [u32],
    upright: &mut [u32],
    slots: &mut [u32],
    out: &mut [u8],
) -> Result<usize, Refusal>
    requires { Roomy (plane.old ∷ spans.old ∷ upright.old ∷ slots.old ∷ []) lent_sizes }
    ensures end { lent_end (lists_of l.entry) (plane.old ∷ spans.old ∷ upright.old ∷ slots.old ∷ []) out.old ≡ record { outcome = result; works = plane.new ∷ spans.new ∷ upright.new ∷ slots.new ∷ []; out = out.new } }
{
    let r = policies::lent_records::lent_record(l, plane, spans, upright, slots, out);
    crate::ends::clear_four(plane, spans, upright, slots);
    r
}

// The table from a lent plane: its record, into `out`.
pub fn read_lent_plane(
    l: Lent,
    plane: &mut [u32],
    spans: &mut [u32],
    upright: &mut [u32],
    slots: &mut [u32],
    out: &mut [u8],
) -> Result<usize, Refusal>
    ensures end { lent_end (lists_of l.entry) (plane.old ∷ spans.old ∷ upright.old ∷ slots.old ∷ []) out.old ≡ record { outcome = result; works = plane.new ∷ spans.new ∷ upright.new ∷ slots.new ∷ []; out = out.new } }
{
    let lens = [plane.len(), spans.len(), upright.len(), slots.len()];
    let least = LENT_SIZES;
    crate::room::work_slices(&lens, &least)?;
    lent_cleared(l, plane, spans, upright, slots, out)
}
