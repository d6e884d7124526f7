// Texts written as slots, one by one and along a row: three numbers each.
ghost use Rattle.std.specs.Prelude.{List, [], ◌∷◌, ◌≡◌, ℕ, ◌+◌, ◌*◌, ◌^◌, ◌≤◌, ◌<◌, length};
ghost use Rattle.model.specs.Limits.{text_bytes};
ghost use Rattle.cells.specs.Slices.{plane_of, text_of};
ghost use Rattle.record.specs.Policy.{Text};
ghost use Rattle.record.specs.Slots.{slot_limit};
ghost use Rattle.clauses.specs.Clauses.{present};
ghost use Rattle.clauses.specs.Spelled.{cell_text, row_texts};
ghost use Rattle.clauses.specs.Stated.{allowed_text, default_text};
ghost use Rattle.values.specs.Values.{values_of};
ghost use Rattle.recognizer.specs.slot_runs.Spelt.{part_of, PartIn, SlotPut, HasRoom, Appended, Names};

use cells::text_plane::TextPlane;
use record::writer::VALUES;
use record::{ABSENT, PART};

// The next slot, and the bytes of the texts before it.
#[derive(Clone, Copy)]
pub struct Filled {
    pub slot: usize,
    pub bytes: usize,
}

// A part of the bytes.
#[derive(Clone, Copy)]
pub struct Part {
    pub offset: u32,
    pub size: u32,
}

// The numbers of a slot: its kind is one of them, as `record` says.
pub fn put_slot(slots: &mut [u32], at: usize, kind: u32, offset: u32, size: u32)
    requires { (3 * at + 3 ≤ length slots.old) × (at < slot_limit) }
    ensures { SlotPut slots.old slots.new at kind offset size }
{
    slots[3 * at] = kind;
    slots[3 * at + 1] = offset;
    slots[3 * at + 2] = size;
}

// The slots of a work slice, and up to where they are filled.
#[derive(Drop)]
pub struct Slots<'a> {
    pub numbers: &'a mut [u32],
    pub filled: Filled,
}

impl<'a> Slots<'a> {
    // A slot of a kind, whose text has so many bytes.
    fn push(&mut self, kind: u32, p: Part, bytes: usize)
        requires { HasRoom self.old 1 × (bytes < 2 ^ 32) }
        ensures { (texts : List ℕ) (t : Text) → Names texts kind p bytes t → Appended texts self.old self.new (t ∷ []) }
    {
        put_slot(self.numbers, self.filled.slot, kind, p.offset, p.size);
        self.filled = Filled {
            slot: self.filled.slot + 1,
            bytes: self.filled.bytes + bytes,
        };
    }

    // A text that is absent.
    pub(crate) fn put_absent(&mut self)
        requires { HasRoom self.old 1 }
        ensures { (bytes : List ℕ) → Appended bytes self.old self.new (None ∷ []) }
    {
        self.push(ABSENT, Part { offset: 0, size: 0 }, 0);
    }

    // A text that is a part.
    pub fn put_part(&mut self, p: Part)
        requires { HasRoom self.old 1 }
        ensures { (bytes : List ℕ) → PartIn p bytes → Appended bytes self.old self.new (Some (part_of bytes p) ∷ []) }
    {
        self.push(PART, p, p.size as usize);
    }

    // A text that is a part, and absent when that is empty.
    pub(crate) fn put_optional(&mut self, p: Part)
        requires { HasRoom self.old 1 }
        ensures { (bytes : List ℕ) → PartIn p bytes → Appended bytes self.old self.new (present (part_of bytes p) ∷ []) }
    {
        if p.size == 0 {
            self.put_absent();
        } else {
            self.put_part(p);
        }
    }

    // Two texts that are absent.
    pub(crate) fn put_no_values(&mut self)
        requires { HasRoom self.old 2 }
        ensures { (bytes : List ℕ) → Appended bytes self.old self.new (None ∷ None ∷ []) }
    {
        self.put_absent();
        self.put_absent();
    }

    // The allowed values of a part that is rewritten to so many bytes.
    fn put_rewritten(&mut self, p: Part, size: usize)
        requires { HasRoom self.old 1 × (size ≤ text_bytes) }
        ensures { (bytes : List ℕ) → PartIn p bytes → size ≡ length (values_of (part_of bytes p)).allowed → Appended bytes self.old self.new (Some (values_of (part_of bytes p)).allowed ∷ []) }
    {
        self.push(VALUES, p, size);
    }

    // The allowed values of a part and their default, by the value split.
    pub fn put_values(&mut self, bytes: &[u8], p: Part)
        requires { HasRoom self.old 2 × PartIn p bytes.now }
        ensures { Appended bytes.now self.old self.new (allowed_text (present (part_of bytes.now p)) ∷ default_text (present (part_of bytes.now p)) ∷ []) }
    {
        if p.size == 0 {
            self.put_no_values();
            return;
        }
        let start = p.offset as usize;
        let end = start + p.size as usize;
        match values::measure_values(&bytes[start..end]) {
            None => {
                self.put_part(p);
                self.put_absent();
            }
            Some(m) => {
                self.put_rewritten(p, m.bytes);
                self.put_part(Part {
                    offset: (start + m.from) as u32,
                    size: (m.to - m.from) as u32,
                });
            }
        }
    }
}

// The part that is a cell's text; an empty one where it cannot be read.
pub fn part_at(sheet: TextPlane, y: usize, x: usize) -> Part
    requires { length sheet.texts.bytes.now ≤ text_bytes }
    ensures text { part_of sheet.entry.texts.bytes.now result ≡ cell_text (text_of sheet.entry.texts) (plane_of sheet.entry.plane) y x }
    ensures inside { PartIn result sheet.entry.texts.bytes.now }
{
    let spans = sheet.texts.spans;
    match clauses::cell_tests::region_at(sheet.plane, y, x) {
        Ok(k) => Part {
            offset: spans[k * 2],
            size: spans[k * 2 + 1],
        },
        Err(_) => Part { offset: 0, size: 0 },
    }
}

// The texts of n cells of row y from column x on.
pub fn put_row(sheet: TextPlane, out: &mut Slots, y: usize, x: usize, n: usize)
    requires { (length sheet.texts.bytes.now ≤ text_bytes) × HasRoom out.old n × (x + n ≤ 128) }
    ensures { Appended sheet.entry.texts.bytes.now out.old out.new (row_texts (text_of sheet.entry.texts) (plane_of sheet.entry.plane) y x n) }
{
    for i in 0..n {
        let p = part_at(sheet, y, x + i);
        out.put_part(p);
    }
}
