// The record of a lent plane. The work slices are left as they come: the entry clears them. They stand side by side, as `builder` says.
ghost use Rattle.std.specs.Prelude.{◌≡◌, length};
ghost use Rattle.recognizer.specs.Told.{table_read};
ghost use Rattle.recognizer.specs.tables.NamedTable.{named_table, AnswerHeld};
ghost use Rattle.policies.specs.LentPolicy.{lent_policy};
ghost use Rattle.recognizer.specs.records.Outcomes.{outcome_of, record_of};
ghost use Rattle.plane.specs.lent.Lent.{lists_of};
ghost use Rattle.policies.specs.lent_records.LentTable.{LentRoom};

use cells::plane::Plane;
use cells::text_plane::TextPlane;
use cells::texts::Texts;
use model::Refusal;
use plane::lent::Lent;
use recognizer::SlotTable;

// The table of a lent plane.
fn lent_table(
    l: Lent,
    plane: &mut [u32],
    spans: &mut [u32],
    upright: &mut [u32],
    slots: &mut [u32],
) -> Result<SlotTable, Refusal>
    requires { LentRoom plane.old spans.old upright.old slots.old }
    ensures table { named_table result l.entry.bytes.now slots.new ≡ table_read (lent_policy (lists_of l.entry)) }
    ensures held { AnswerHeld result l.entry.bytes.now slots.new }
{
    let rows = plane::lent::load(l, plane, spans)?;
    let sheet = TextPlane {
        plane: Plane { cells: plane, rows },
        texts: Texts {
            bytes: l.bytes,
            spans,
            count: l.offsets.len(),
        },
    };
    recognizer::tables::plane_table(sheet, false, upright, slots)
}

// The record of a lent plane.
pub fn lent_record(
    l: Lent,
    plane: &mut [u32],
    spans: &mut [u32],
    upright: &mut [u32],
    slots: &mut [u32],
    out: &mut [u8],
) -> Result<usize, Refusal>
    requires { LentRoom plane.old spans.old upright.old slots.old }
    ensures outcome { result ≡ outcome_of (table_read (lent_policy (lists_of l.entry))) (length out.old) }
    ensures out { out.new ≡ record_of (table_read (lent_policy (lists_of l.entry))) out.old }
{
    let t = lent_table(l, plane, spans, upright, slots)?;
    recognizer::records::write_table(t, l.bytes, slots, out)
}
