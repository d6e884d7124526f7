// The table record, written to a slice: its header and its slots.
// The record's slice is lent by the caller, in C too, and what lies behind the record stays: a slice with a place, and no vector.
// No writer either: a text is written at two places, its slot's and its own, and the first of them is told by the slot's number.
#![tactic(auto)]

pub mod record_texts;
pub mod writer;

ghost use Rattle.std.specs.Prelude.{[], ◌∷◌, ◌++◌, ◌≡◌, ◌+◌, ◌*◌, ◌<◌, ◌≤◌, ◌^◌, length};
ghost use Rattle.lists.specs.Put.{put};
ghost use Rattle.record.specs.Record.{word, words, slot_offset, text_offset};
ghost use Rattle.record.specs.Written.{begun_of, headed};

use model::Refusal;

// A slot's kinds in a work slice: numbers, since the slice is the caller's and its size is fixed. An enum beside them is no plainer:
// `slot_runs` and `tables` would only turn it into its number, and each of the two who read a kind makes one test of it.
pub const ABSENT: u32 = 0;

pub const PART: u32 = 1;

// The numbers of a record's header.
#[derive(Clone, Copy)]
pub struct Head {
    pub policy: u32,
    pub orientation: u32,
    pub inputs: u32,
    pub outputs: u32,
    pub annotations: u32,
    pub rules: u32,
}

// The word w, from index at on.
fn put_word(out: &mut [u8], at: usize, w: u32)
    requires { at + 4 ≤ length out.old }
    ensures { out.new ≡ put out.old at (word w) }
{
    let bytes = w.to_le_bytes();
    lists::put_bytes(out, at, &bytes);
}

// The words ws, from index at on.
fn put_words(out: &mut [u8], at: usize, ws: &[u32])
    requires { at + 4 * length ws.now ≤ length out.old }
    ensures { out.new ≡ put out.old at (words ws.now) }
{
    for i in 0..ws.len() {
        put_word(out, at + 4 * i, ws[i]);
    }
}

// Begins a record of so many slots and bytes of text: its ten words, if the slice is long enough for all of it.
pub(crate) fn begin_record(
    out: &mut [u8],
    h: Head,
    slots: usize,
    bytes: usize,
) -> Result<usize, Refusal>
    requires { text_offset slots + bytes < 2 ^ 32 }
    ensures value { result ≡ begun_of (length out.old) (text_offset slots + bytes) }
    ensures out_after { out.new ≡ headed out.old (text_offset slots + bytes) ((text_offset slots + bytes) ∷ h.policy ∷ h.orientation ∷ h.inputs ∷ h.outputs ∷ h.annotations ∷ h.rules ∷ slot_offset ∷ slots ∷ text_offset slots ∷ []) }
{
    let first = 40 + 8 * slots;
    let total = first + bytes;
    if out.len() < total {
        return Err(Refusal::OutputSliceShort(total));
    }
    let ws = [
        total as u32,
        h.policy,
        h.orientation,
        h.inputs,
        h.outputs,
        h.annotations,
        h.rules,
        40,
        slots as u32,
        first as u32,
    ];
    put_words(out, 0, &ws);
    Ok(total)
}

// The slot of a text of n bytes that stands at an offset.
pub fn put_slot(out: &mut [u8], slot: usize, offset: usize, n: usize)
    requires { (slot_offset + 8 * slot + 8 ≤ length out.old) × (offset < 2 ^ 32) × (n < 2 ^ 32) }
    ensures { out.new ≡ put out.old (slot_offset + 8 * slot) (word offset ++ word n) }
{
    let at = 40 + 8 * slot;
    put_word(out, at, offset as u32);
    put_word(out, at + 4, n as u32);
}
