// From the layers of a drawing to its regions with their texts, and to its plane.
// The work slices stand side by side for the reason at `canvas::draw_sheet`.
#![tactic(auto)]

pub mod plane_cells;
pub mod plane_rows;
pub mod step;
pub mod texts;

ghost use Rattle.std.specs.Prelude.{◌≡◌};
ghost use Rattle.lists.specs.Picture.{canvas};
ghost use Rattle.model.specs.Layers.{picture_of};
ghost use Rattle.text_planes.specs.DrawnPlane.{text_plane_of, plane_read, PlaneHeld, PlaneRoom};
ghost use Rattle.text_planes.specs.RegionTexts.{region_texts_of, regions_in, UsedIn, RegionRoom};

use cells::rects::list::Rects;
use frames::outline::Outline;
use model::Refusal;
use model::layer::Layer;

// So many regions, whose texts have so many bytes. No code reads `used`: by it the contract says where the texts end.
#[derive(Clone, Copy)]
pub struct RegionsRead {
    pub count: usize,
    pub used: usize,
}

// The regions of THIN with their texts on TEXT.
pub fn read_regions(
    text: Layer,
    thins: Layer,
    rects: &mut [u32],
    bytes: &mut [u8],
    spans: &mut [u32],
) -> Result<RegionsRead, Refusal>
    requires { RegionRoom text thins rects.old bytes.old spans.old }
    ensures answer { regions_in result rects.new bytes.new spans.new ≡ region_texts_of (picture_of text.entry) (picture_of thins.entry) thins.entry.width thins.entry.height }
    ensures used { UsedIn result bytes.new spans.new }
{
    let count = frames::regions::regions(thins, rects)?;
    let found = Rects {
        numbers: rects,
        count,
    };
    let used = crate::texts::gather(text, found, bytes, spans)?;
    Ok(RegionsRead { count, used })
}

// So many rows of a plane, with so many regions.
#[derive(Clone, Copy)]
pub struct PlaneRead {
    pub rows: usize,
    pub count: usize,
}

// The plane of the layers of a drawing, which have GRID's columns and rows, and the texts of its regions. Once there is
// GRID, BODY is not needed: the regions go there. Once their texts are gathered neither THIN nor TEXT is: the numbers of
// the frames of GRID go where THIN was, the plane where TEXT was.
pub fn read_plane(
    o: Outline,
    text: &mut [u32],
    thins: &mut [u32],
    grid: Layer,
    bodies: &mut [u32],
    bytes: &mut [u8],
    spans: &mut [u32],
) -> Result<PlaneRead, Refusal>
    requires { PlaneRoom grid.width grid.height text.old thins.old bodies.old bytes.old spans.old }
    ensures answer { plane_read result text.new bytes.new spans.new ≡ text_plane_of o (canvas grid.entry.width grid.entry.height text.old) (canvas grid.entry.width grid.entry.height thins.old) (picture_of grid.entry) grid.entry.width grid.entry.height }
    ensures held { PlaneHeld result text.new bytes.new spans.new }
{
    let text_layer = Layer {
        codes: text,
        width: grid.width,
        height: grid.height,
    };
    let thin_layer = Layer {
        codes: thins,
        width: grid.width,
        height: grid.height,
    };
    let count = read_regions(text_layer, thin_layer, bodies, bytes, spans)?.count;
    let rects = Rects {
        numbers: bodies,
        count,
    };
    let rows = crate::step::make_plane(o, grid, rects, thins, text)?;
    Ok(PlaneRead { rows, count })
}
