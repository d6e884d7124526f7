// The plane of a drawing. The work slices stand side by side, as `builder` says.
ghost use Rattle.std.specs.Prelude.{◌≡◌};
ghost use Rattle.policies.specs.drawn_planes.DrawnTable.{named_plane, drawn_in, DrawnHeld, DrawnRoom};

use model::Refusal;
use model::layer::Layer;

// So many rows of a plane, with so many regions, and whether the first of these is the name's: its text stands among theirs, as `tables` says.
#[derive(Clone, Copy)]
pub struct DrawnRows {
    pub rows: usize,
    pub count: usize,
    pub named: bool,
}

// The plane of a drawing, with the texts of its regions.
pub(crate) fn drawn_plane(
    s: &[u8],
    text: &mut [u32],
    thins: &mut [u32],
    bodies: &mut [u32],
    grid: &mut [u32],
    bytes: &mut [u8],
    spans: &mut [u32],
) -> Result<DrawnRows, Refusal>
    requires { DrawnRoom text.old thins.old bodies.old grid.old bytes.old spans.old }
    ensures plane { drawn_in result text.new bytes.new spans.new ≡ named_plane s.now }
    ensures held { DrawnHeld result text.new bytes.new spans.new }
{
    let d = canvas::draw_sheet(s, text, thins, bodies, grid)?;
    let o = d.outline;
    let layer = Layer {
        codes: grid,
        width: d.columns,
        height: d.rows,
    };
    let p = text_planes::read_plane(o, text, thins, layer, bodies, bytes, spans)?;
    Ok(DrawnRows {
        rows: p.rows,
        count: p.count,
        named: o.named,
    })
}
