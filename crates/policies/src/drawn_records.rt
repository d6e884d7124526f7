// The record of a drawing. The work slices are left as they come: the entry clears them. They stand side by side, as `builder` says.
ghost use Rattle.std.specs.Prelude.{Ok, ◌≡◌, ◌*◌, ◌≤◌, length, take};
ghost use Rattle.model.specs.Limits.{plane_size, text_bytes};
ghost use Rattle.record.specs.Slots.{slot_limit};
ghost use Rattle.recognizer.specs.Told.{table_read};
ghost use Rattle.recognizer.specs.tables.NamedTable.{named_table, AnswerHeld, NamedHeld};
ghost use Rattle.policies.specs.DrawnPolicy.{walked_policy};
ghost use Rattle.recognizer.specs.records.Outcomes.{outcome_of, record_of};
ghost use Rattle.policies.specs.drawn_planes.DrawnTable.{named_policy, drawn_in, DrawnHeld, DrawnRoom};

use crate::drawn_planes::DrawnRows;
use cells::plane::Plane;
use cells::text_plane::TextPlane;
use cells::texts::Texts;
use model::Refusal;
use model::limits::TEXT_BYTES;
use recognizer::SlotTable;

// The first 61,440 bytes, in which the texts of a drawing lie.
fn texts_in(bytes: &[u8]) -> &[u8]
    requires { text_bytes ≤ length bytes.now }
    ensures { result.now ≡ take text_bytes bytes.now }
{
    &bytes[0..TEXT_BYTES]
}

// The table of a plane that is drawn.
fn table_of(
    d: DrawnRows,
    plane: &[u32],
    bytes: &[u8],
    spans: &[u32],
    upright: &mut [u32],
    slots: &mut [u32],
) -> Result<SlotTable, Refusal>
    requires { DrawnHeld (Ok d) plane.now bytes.now spans.now × (text_bytes ≤ length bytes.now) × (plane_size ≤ length upright.old) × (3 * slot_limit ≤ length slots.old) }
    ensures table { named_table result (take text_bytes bytes.now) slots.new ≡ table_read (named_policy (drawn_in (Ok d) plane.now bytes.now spans.now)) }
    ensures held { AnswerHeld result (take text_bytes bytes.now) slots.new }
{
    let sheet = TextPlane {
        plane: Plane {
            cells: plane,
            rows: d.rows,
        },
        texts: Texts {
            bytes: texts_in(bytes),
            spans,
            count: d.count,
        },
    };
    recognizer::tables::plane_table(sheet, d.named, upright, slots)
}

// The record of a table whose texts lie in the first 61,440 bytes.
fn write_drawn(t: SlotTable, bytes: &[u8], slots: &[u32], out: &mut [u8]) -> Result<usize, Refusal>
    requires { NamedHeld t (take text_bytes bytes.now) slots.now × (text_bytes ≤ length bytes.now) × (3 * slot_limit ≤ length slots.now) }
    ensures outcome { result ≡ outcome_of (named_table (Ok t) (take text_bytes bytes.now) slots.now) (length out.old) }
    ensures out { out.new ≡ record_of (named_table (Ok t) (take text_bytes bytes.now) slots.now) out.old }
{
    recognizer::records::write_table(t, texts_in(bytes), slots, out)
}

// The record of a drawing. The plane lies where TEXT was. Once it is there neither the other layers nor what took their
// place are needed: the upright sheet goes where BODY was, the slots where THIN was.
pub fn sheet_record(
    s: &[u8],
    text: &mut [u32],
    thins: &mut [u32],
    bodies: &mut [u32],
    grid: &mut [u32],
    spans: &mut [u32],
    bytes: &mut [u8],
    out: &mut [u8],
) -> Result<usize, Refusal>
    requires { DrawnRoom text.old thins.old bodies.old grid.old bytes.old spans.old }
    ensures outcome { result ≡ outcome_of (table_read (walked_policy s.now)) (length out.old) }
    ensures out { out.new ≡ record_of (table_read (walked_policy s.now)) out.old }
{
    let d = crate::drawn_planes::drawn_plane(s, text, thins, bodies, grid, bytes, spans)?;
    let t = table_of(d, text, bytes, spans, bodies, thins)?;
    write_drawn(t, bytes, thins, out)
}
