// A table's record, written from slots. A slot names a text: none, a part of the bytes, or the allowed values of a part.
// The record's slice comes with its places, as `record` says.
ghost use Rattle.std.specs.Prelude.{ℕ, [], ◌∷◌, ◌≡◌, ◌+◌, ◌*◌, ◌≤◌, ◌<◌, length};
ghost use Rattle.record.specs.Record.{bytes_of, text_offset, total};
ghost use Rattle.record.specs.Slots.{kind_at, offset_at, length_at, part_at};
ghost use Rattle.record.specs.Written.{begun_of, with_texts};
ghost use Rattle.record.specs.record_texts.PlainSlots.{Fits};
ghost use Rattle.record.specs.writer.SlotIn.{SlotIn};
ghost use Rattle.record.specs.writer.SlotTexts.{slot_text, texts_from};
ghost use Rattle.record.specs.writer.SlotRecord.{table_from, record_in, SlotsHeld};

use crate::record_texts::Reached;
use crate::record_texts::slotted::Slotted;
use crate::{Head, PART};
use model::Refusal;

// The kind of a slot whose text is the allowed values of a part: a number, as its kinds in `record` are.
pub const VALUES: u32 = 2;

// The part of the bytes that a slot names.
fn part_of<'a, 'b>(bytes: &'a [u8], slots: &'b [u32], slot: usize) -> &'a [u8]
    requires { (3 * slot + 2 < length slots.now) × (offset_at slots.now slot + length_at slots.now slot ≤ length bytes.now) }
    ensures { result.now ≡ part_at bytes.now slots.now slot }
{
    let a = slots[3 * slot + 1] as usize;
    let e = a + slots[3 * slot + 2] as usize;
    &bytes[a..e]
}

// A slot whose text is the allowed values of its part; the offset behind its text.
fn write_values(texts: Slotted, at: Reached, out: &mut [u8]) -> usize
    requires held { SlotIn texts at.slot × (1 < kind_at texts.slots.now at.slot) }
    requires fits { Fits (slot_text texts.bytes.now texts.slots.now at.slot ∷ []) texts.count at.slot at.offset (length out.old) }
    ensures value { result ≡ at.offset + length (bytes_of (slot_text texts.entry.bytes.now texts.entry.slots.now at.slot)) }
    ensures out_after { out.new ≡ with_texts out.old at.slot at.offset (slot_text texts.entry.bytes.now texts.entry.slots.now at.slot ∷ []) }
{
    let text = part_of(texts.bytes, texts.slots, at.slot);
    let end = values::put_values(text, out, at.offset);
    crate::put_slot(out, at.slot, at.offset, end - at.offset);
    end
}

// A slot with its text; the offset behind it.
fn write_slot(texts: Slotted, at: Reached, out: &mut [u8]) -> usize
    requires held { SlotIn texts at.slot }
    requires fits { Fits (slot_text texts.bytes.now texts.slots.now at.slot ∷ []) texts.count at.slot at.offset (length out.old) }
    ensures end { result ≡ at.offset + length (bytes_of (slot_text texts.entry.bytes.now texts.entry.slots.now at.slot)) }
    ensures out_after { out.new ≡ with_texts out.old at.slot at.offset (slot_text texts.entry.bytes.now texts.entry.slots.now at.slot ∷ []) }
{
    let slots = texts.slots;
    if PART < slots[3 * at.slot] {
        return write_values(texts, at, out);
    }
    crate::record_texts::put_part(out, texts, at)
}

// All slots with their texts.
fn write_slots(texts: Slotted, out: &mut [u8])
    requires held { (i : ℕ) → i < texts.count → SlotIn texts i }
    requires fits { Fits (texts_from texts.bytes.now texts.slots.now 0 texts.count) texts.count 0 (text_offset texts.count) (length out.old) }
    ensures { out.new ≡ with_texts out.old 0 (text_offset texts.entry.count) (texts_from texts.entry.bytes.now texts.entry.slots.now 0 texts.entry.count) }
{
    let c = texts.count;
    let mut offset = 40 + 8 * c;
    for slot in 0..c {
        offset = write_slot(texts, Reached { slot, offset }, out);
    }
}

// Writes the record of c slots, whose texts have so many bytes; or the slice is too short for it.
pub fn write_record(
    bytes: &[u8],
    slots: &[u32],
    c: usize,
    used: usize,
    h: Head,
    out: &mut [u8],
) -> Result<usize, Refusal>
    requires { SlotsHeld h bytes.now slots.now c used }
    ensures answer { result ≡ begun_of (length out.old) (total (table_from h bytes.now slots.now c)) }
    ensures written { out.new ≡ record_in out.old (table_from h bytes.now slots.now c) }
{
    let total = crate::begin_record(out, h, c, used)?;
    let texts = Slotted {
        bytes,
        slots,
        count: c,
    };
    write_slots(texts, out);
    Ok(total)
}
