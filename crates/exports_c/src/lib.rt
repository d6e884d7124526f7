// The three entries as a static library for programs in C or Rust, under the names of the header: a slice is a pointer and a count, an outcome is numbers.
#![tactic(auto)]

ghost use Rattle.std.specs.Prelude.{[], ◌∷◌, ◌≡◌};
ghost use Rattle.builder.specs.SheetEnd.{sheet_end};
ghost use Rattle.builder.specs.lent_builder.LentEnd.{lent_end};
ghost use Rattle.builder.specs.numbers.Answers.{answer_of, SplitTold};

use builder::numbers::{Answer, SplitAnswer};
use plane::lent::Lent;

// The whole reader.
#[unsafe(no_mangle)]
pub extern "C" fn fezandimo_read_sheet(
    s: &[u8],
    text: &mut [u32],
    thins: &mut [u32],
    bodies: &mut [u32],
    grid: &mut [u32],
    spans: &mut [u32],
    bytes: &mut [u8],
    out: &mut [u8],
) -> Answer
    ensures answer { result ≡ answer_of (sheet_end s.now (text.old ∷ thins.old ∷ bodies.old ∷ grid.old ∷ spans.old ∷ bytes.old ∷ []) out.old).outcome }
    ensures works { (text.new ∷ thins.new ∷ bodies.new ∷ grid.new ∷ spans.new ∷ bytes.new ∷ []) ≡ (sheet_end s.now (text.old ∷ thins.old ∷ bodies.old ∷ grid.old ∷ spans.old ∷ bytes.old ∷ []) out.old).works }
    ensures out { out.new ≡ (sheet_end s.now (text.old ∷ thins.old ∷ bodies.old ∷ grid.old ∷ spans.old ∷ bytes.old ∷ []) out.old).out }
{
    let o = builder::read_sheet(s, text, thins, bodies, grid, spans, bytes, out);
    Answer::from(o)
}

// The table from a lent plane.
#[unsafe(no_mangle)]
pub extern "C" fn fezandimo_read_lent_plane(
    rows: &[u32],
    kinds: &[u8],
    regions: &[u32],
    offsets: &[u32],
    sizes: &[u32],
    bytes: &[u8],
    plane: &mut [u32],
    spans: &mut [u32],
    upright: &mut [u32],
    slots: &mut [u32],
    out: &mut [u8],
) -> Answer
    ensures answer { result ≡ answer_of (lent_end (record { rows = rows.now; kinds = kinds.now; regions = regions.now; offsets = offsets.now; sizes = sizes.now; bytes = bytes.now }) (plane.old ∷ spans.old ∷ upright.old ∷ slots.old ∷ []) out.old).outcome }
    ensures works { (plane.new ∷ spans.new ∷ upright.new ∷ slots.new ∷ []) ≡ (lent_end (record { rows = rows.now; kinds = kinds.now; regions = regions.now; offsets = offsets.now; sizes = sizes.now; bytes = bytes.now }) (plane.old ∷ spans.old ∷ upright.old ∷ slots.old ∷ []) out.old).works }
    ensures out { out.new ≡ (lent_end (record { rows = rows.now; kinds = kinds.now; regions = regions.now; offsets = offsets.now; sizes = sizes.now; bytes = bytes.now }) (plane.old ∷ spans.old ∷ upright.old ∷ slots.old ∷ []) out.old).out }
{
    let l = Lent {
        rows,
        kinds,
        regions,
        offsets,
        sizes,
        bytes,
    };
    let o = builder::lent_builder::read_lent_plane(l, plane, spans, upright, slots, out);
    Answer::from(o)
}

// The value split.
#[unsafe(no_mangle)]
pub extern "C" fn fezandimo_split_values(text: &[u8], scratch: &mut [u8]) -> SplitAnswer
    ensures { SplitTold result text.now scratch.old scratch.new }
{
    let s = values::utils::split_values(text, scratch);
    SplitAnswer::from(s)
}
