// The table of a plane, with its name: its numbers, and its texts as slots of a work slice.
ghost use Rattle.std.specs.Prelude.{◌≡◌, ◌*◌, ◌≤◌, length};
ghost use Rattle.model.specs.Limits.{text_bytes};
ghost use Rattle.cells.specs.Slices.{plane_of, text_of};
ghost use Rattle.record.specs.Slots.{slot_limit};
ghost use Rattle.recognizer.specs.StatedPolicy.{stated_policy};
ghost use Rattle.recognizer.specs.Told.{table_read, TableHeld, WorkRoom};
ghost use Rattle.recognizer.specs.tables.NamedTable.{name_of, named_table, AnswerHeld, NameIn, NamePut, Named};

use crate::SlotTable;
use cells::text_plane::TextPlane;
use cells::texts::Texts;
use model::Refusal;
use record::{ABSENT, PART};

// `named`: the first region's text is the name. It stands in `texts`, named or not, so that an `Option` of its part would say it twice
// and ask that both agree.
// The name's slot: the first region's text, or none. Answers the name's bytes.
fn put_name(texts: Texts, slots: &mut [u32], named: bool) -> usize
    requires { NameIn named texts.count × (3 ≤ length slots.old) }
    ensures { NamePut named texts.entry.spans.now slots.old slots.new result }
{
    let spans = texts.spans;
    if named {
        crate::slot_runs::put_slot(slots, 0, PART, spans[0], spans[1]);
        return spans[1] as usize;
    }
    crate::slot_runs::put_slot(slots, 0, ABSENT, 0, 0);
    0
}

// A table with its name.
fn add_name(t: SlotTable, texts: Texts, slots: &mut [u32], named: bool) -> SlotTable
    requires { TableHeld t texts.bytes.now slots.old × NameIn named texts.count × (length texts.bytes.now ≤ text_bytes) × (3 * slot_limit ≤ length slots.old) }
    ensures { Named t result (name_of named (text_of texts.entry)) texts.entry.bytes.now slots.old slots.new }
{
    let size = put_name(texts, slots, named);
    SlotTable {
        bytes: t.bytes + size,
        ..t
    }
}

// The table of a plane, with a name where there is one.
pub fn plane_table(
    sheet: TextPlane,
    named: bool,
    upright: &mut [u32],
    slots: &mut [u32],
) -> Result<SlotTable, Refusal>
    requires { WorkRoom sheet.texts.bytes.now upright.old slots.old × NameIn named sheet.texts.count }
    ensures table { named_table result sheet.entry.texts.bytes.now slots.new ≡ table_read (stated_policy (name_of named (text_of sheet.entry.texts)) (text_of sheet.entry.texts) (plane_of sheet.entry.plane)) }
    ensures held { AnswerHeld result sheet.entry.texts.bytes.now slots.new }
{
    let t = crate::recognize(sheet, upright, slots)?;
    Ok(add_name(t, sheet.texts, slots, named))
}
