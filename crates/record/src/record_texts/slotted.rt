// Texts that slots name.
ghost use Rattle.record.specs.record_texts.PlainSlots.{Parts};

// The texts of so many slots of a work slice, whose parts lie in the bytes.
#[derive(Clone, Copy)]
pub struct Slotted<'b, 's> {
    pub bytes: &'b [u8],
    pub slots: &'s [u32],
    pub count: usize,
    pub ghost parts: { Parts bytes.now slots.now count },
}
