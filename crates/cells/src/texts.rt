// The texts of a plane's regions: bytes, and an offset and a length for each text.
ghost use Rattle.cells.specs.Held.{TextsHeld};

use model::Cell;

// The first texts that slices hold.
#[derive(Clone, Copy)]
pub struct Texts<'b, 's> {
    pub bytes: &'b [u8],
    pub spans: &'s [u32],
    pub count: usize,
    pub ghost held: { TextsHeld bytes.now spans.now count },
}

impl<'b, 's> Texts<'b, 's> {
    ghost use Rattle.std.specs.Prelude.{◌≡◌, ◌<◌};
    ghost use Rattle.std.specs.Option.{option_map};
    ghost use Rattle.model.specs.Cells.{region_of};
    ghost use Rattle.cells.specs.Held.{Numbered};
    ghost use Rattle.cells.specs.Slices.{text_of};
    ghost use Rattle.cells.specs.Spans.{text_at};

    // The text of region k.
    pub fn text(self, k: usize) -> &'b [u8]
        requires { k < self.count }
        ensures { result.now ≡ text_at self.entry.bytes.now self.entry.spans.now k }
    {
        crate::text_at(self.bytes, self.spans, k)
    }

    // The text of a cell's region.
    pub fn of(self, c: Cell) -> Option<&'b [u8]>
        requires { Numbered self.count c }
        ensures { option_map (λ t. t.now) result ≡ option_map (text_of self.entry) (region_of c) }
    {
        let k = c.region()?;
        Some(self.text(k))
    }
}
