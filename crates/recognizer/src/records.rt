// The record of a table that is read.
ghost use Rattle.std.specs.Prelude.{◌≡◌, ◌*◌, ◌≤◌, length};
ghost use Rattle.record.specs.Slots.{slot_limit};
ghost use Rattle.recognizer.specs.tables.NamedTable.{named_table, NamedHeld};
ghost use Rattle.recognizer.specs.records.Outcomes.{outcome_of, record_of};

use crate::SlotTable;
use model::Refusal;
use record::Head;

// The record of a table whose texts stand in slots.
// No `From<SlotTable>` for `Head`: the numbers fit a `u32` by what is asked here, and a conversion asks nothing.
pub fn write_table(
    t: SlotTable,
    bytes: &[u8],
    slots: &[u32],
    out: &mut [u8],
) -> Result<usize, Refusal>
    requires { NamedHeld t bytes.now slots.now × (3 * slot_limit ≤ length slots.now) }
    ensures outcome { result ≡ outcome_of (named_table (Ok t) bytes.now slots.now) (length out.old) }
    ensures out { out.new ≡ record_of (named_table (Ok t) bytes.now slots.now) out.old }
{
    let policy = t.policy;
    let orientation = t.orientation;
    let head = Head {
        policy: u32::from(policy),
        orientation: u32::from(orientation),
        inputs: t.inputs as u32,
        outputs: t.outputs as u32,
        annotations: t.annotations as u32,
        rules: t.rules as u32,
    };
    record::writer::write_record(bytes, slots, t.slots, t.bytes, head, out)
}
