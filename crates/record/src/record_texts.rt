// The texts of a table record, written to its slice with their slots: packed in slot order.
// The record's slice comes with its places, as `record` says.
ghost use Rattle.std.specs.Prelude.{[], ◌∷◌, ◌≡◌, ◌+◌, ◌*◌, ◌<◌, ◌≤◌, ◌^◌, length, take, drop};
ghost use Rattle.record.specs.Record.{bytes_of, slot_offset};
ghost use Rattle.record.specs.Slots.{kind_at};
ghost use Rattle.record.specs.Written.{with_texts};
ghost use Rattle.record.specs.record_texts.PlainSlots.{text_at, Fits};

use crate::ABSENT;
use crate::record_texts::slotted::Slotted;

pub mod slotted;

// How far a record is written: the next slot, and the next text's offset.
#[derive(Clone, Copy)]
pub struct Reached {
    pub slot: usize,
    pub offset: usize,
}

// A slot whose text is present, and the text at the running offset; the offset behind it.
fn put_text(out: &mut [u8], at: Reached, text: &[u8]) -> usize
    requires { (slot_offset + 8 * at.slot + 8 ≤ at.offset) × (at.offset + length text.now ≤ length out.old) × (at.offset + length text.now < 2 ^ 32) }
    ensures value { result ≡ at.offset + length text.now }
    ensures out_after { out.new ≡ with_texts out.old at.slot at.offset (Some text.now ∷ []) }
{
    crate::put_slot(out, at.slot, at.offset, text.len());
    lists::put_bytes(out, at.offset, text);
    at.offset + text.len()
}

// The n bytes from index a on.
fn part(s: &[u8], a: usize, n: usize) -> &[u8]
    requires { a + n ≤ length s.now }
    ensures { result.now ≡ take n (drop a s.now) }
{
    let e = a + n;
    &s[a..e]
}

// A slot that is absent or a part of the bytes, with its text; the offset behind it.
pub fn put_part(out: &mut [u8], texts: Slotted, at: Reached) -> usize
    requires plain { (at.slot < texts.count) × (kind_at texts.slots.now at.slot ≤ 1) }
    requires fits { Fits (text_at texts.bytes.now texts.slots.now at.slot ∷ []) texts.count at.slot at.offset (length out.old) }
    ensures value { result ≡ at.offset + length (bytes_of (text_at texts.entry.bytes.now texts.entry.slots.now at.slot)) }
    ensures out_after { out.new ≡ with_texts out.old at.slot at.offset (text_at texts.entry.bytes.now texts.entry.slots.now at.slot ∷ []) }
{
    let slots = texts.slots;
    if slots[3 * at.slot] == ABSENT {
        crate::put_slot(out, at.slot, 0, 0);
        return at.offset;
    }
    let a = slots[3 * at.slot + 1] as usize;
    let n = slots[3 * at.slot + 2] as usize;
    put_text(out, at, part(texts.bytes, a, n))
}
