// The policy that a plane states, as the numbers of a table and the slots of its texts.
#![tactic(auto)]

pub mod records;
pub mod slot_runs;
pub mod slots;
pub mod tables;

ghost use Rattle.std.specs.Prelude.{◌≡◌, ℕ, ◌*◌, ◌≤◌, ◌<◌, length, get_or};
ghost use Rattle.model.specs.Limits.{text_bytes};
ghost use Rattle.cells.specs.Slices.{plane_of, text_of};
ghost use Rattle.record.specs.Policy.{Text};
ghost use Rattle.record.specs.Slots.{slot_limit};
ghost use Rattle.recognizer.specs.StatedPolicy.{sheet_policy, stated_policy};
ghost use Rattle.recognizer.specs.Told.{table_in, table_read, RecognizedHeld, WorkRoom};

use cells::plane::Plane;
use cells::text_plane::TextPlane;
use model::{HitPolicy, Orientation, Refusal};
use plane::Stated;

// The numbers of a table, its slots with the name's, and the bytes of its texts without the name.
#[derive(Clone, Copy)]
pub struct SlotTable {
    pub policy: HitPolicy,
    pub orientation: Orientation,
    pub inputs: usize,
    pub outputs: usize,
    pub annotations: usize,
    pub rules: usize,
    pub slots: usize,
    pub bytes: usize,
}

// The table of an upright sheet; its texts go into the slots from 1 on.
fn recognize_sheet(sheet: TextPlane, s: Stated, slots: &mut [u32]) -> Result<SlotTable, Refusal>
    requires { (length sheet.texts.bytes.now ≤ text_bytes) × (3 * slot_limit ≤ length slots.old) × (0 < s.rules) }
    ensures table { (name : Text) → table_in name result sheet.entry.texts.bytes.now slots.new ≡ table_read (sheet_policy name (text_of sheet.entry.texts) (record { orientation = s.orientation; policy = s.policy; rules = s.rules; plane = plane_of sheet.entry.plane })) }
    ensures held { RecognizedHeld result sheet.entry.texts.bytes.now slots.new }
    ensures name { (j : ℕ) → j < 3 → get_or slots.new j 0 ≡ get_or slots.old j 0 }
{
    let f = clauses::checked_shape(sheet.plane, s.rules)?;
    let rules = s.rules as usize;
    let e = crate::slots::fill(sheet, slots, f, rules);
    Ok(SlotTable {
        policy: s.policy,
        orientation: s.orientation,
        inputs: f.inputs,
        outputs: f.outputs,
        annotations: f.notes.count,
        rules,
        slots: e.slot,
        bytes: e.bytes,
    })
}

// The table of a plane; the name's slot is left to the caller.
pub(crate) fn recognize(
    sheet: TextPlane,
    upright: &mut [u32],
    slots: &mut [u32],
) -> Result<SlotTable, Refusal>
    requires { WorkRoom sheet.texts.bytes.now upright.old slots.old }
    ensures table { (name : Text) → table_in name result sheet.entry.texts.bytes.now slots.new ≡ table_read (stated_policy name (text_of sheet.entry.texts) (plane_of sheet.entry.plane)) }
    ensures held { RecognizedHeld result sheet.entry.texts.bytes.now slots.new }
    ensures name { (j : ℕ) → j < 3 → get_or slots.new j 0 ≡ get_or slots.old j 0 }
{
    let s = plane::upright_sheet(sheet, upright)?;
    let stated = TextPlane {
        plane: Plane {
            cells: upright,
            rows: s.rows,
        },
        texts: sheet.texts,
    };
    recognize_sheet(stated, s, slots)
}
