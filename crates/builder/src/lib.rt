// The whole reader, from the bytes of a sheet to its record.
// The work slices stand side by side, as C lends them: of a struct of them each function that hands it on would have to say that it
// still lends the same ones, which of parameters is known.
#![tactic(auto)]

pub mod ends;
pub mod lent_builder;
pub mod numbers;
pub mod room;

ghost use Rattle.std.specs.Prelude.{[], ◌∷◌, ◌≡◌};
ghost use Rattle.builder.specs.room.Room.{Roomy};
ghost use Rattle.builder.specs.SheetEnd.{sheet_sizes, sheet_end};

use model::Refusal;

// The least lengths of the work slices, in the order in which they are lent.
const SHEET_SIZES: [usize; 6] = [15360, 15360, 15360, 15360, 2048, 61444];

// The record of a drawing; then the work slices are cleared.
fn sheet_cleared(
    s: &[u8],
    text: &mut [u32],
    thins: &mut [u32],
    bodies: &mut [u32],
    grid: &mut [u32],
    spans: &mut [u32],
    bytes: &mut [u8],
    out: &mut [u8],
) -> Result<usize, Refusal>
    requires { Roomy (text.old ∷ thins.old ∷ bodies.old ∷ grid.old ∷ spans.old ∷ bytes.old ∷ []) sheet_sizes }
    ensures end { sheet_end s.now (text.old ∷ thins.old ∷ bodies.old ∷ grid.old ∷ spans.old ∷ bytes.old ∷ []) out.old ≡ record { outcome = result; works = text.new ∷ thins.new ∷ bodies.new ∷ grid.new ∷ spans.new ∷ bytes.new ∷ []; out = out.new } }
{
    let r = policies::drawn_records::sheet_record(s, text, thins, bodies, grid, spans, bytes, out);
    crate::ends::clear_four(text, thins, bodies, grid);
    lists::fill(spans, 0);
    lists::fill(bytes, 0);
    r
}

// The whole reader: the record of the sheet that some bytes draw, into `out`.
pub fn read_sheet(
    s: &[u8],
    text: &mut [u32],
    thins: &mut [u32],
    bodies: &mut [u32],
    grid: &mut [u32],
    spans: &mut [u32],
    bytes: &mut [u8],
    out: &mut [u8],
) -> Result<usize, Refusal>
    ensures end { sheet_end s.now (text.old ∷ thins.old ∷ bodies.old ∷ grid.old ∷ spans.old ∷ bytes.old ∷ []) out.old ≡ record { outcome = result; works = text.new ∷ thins.new ∷ bodies.new ∷ grid.new ∷ spans.new ∷ bytes.new ∷ []; out = out.new } }
{
    let lens = [
        text.len(),
        thins.len(),
        bodies.len(),
        grid.len(),
        spans.len(),
        bytes.len(),
    ];
    let sizes = SHEET_SIZES;
    crate::room::work_slices(&lens, &sizes)?;
    sheet_cleared(s, text, thins, bodies, grid, spans, bytes, out)
}
