// What is printed for a sheet, as the judge of the Rust prints it.
ghost use Rattle.std.specs.Prelude.{◌+◌, ◌≤◌};
ghost use Rattle.arrayvec.specs.ArrayVec.{array_vec_len};
ghost use Rattle.model.specs.Layers.{picture_of};
ghost use Rattle.model.specs.Limits.{region_count};
ghost use Rattle.cells.specs.rects.Rects.{rects_in};
ghost use Rattle.text_planes.specs.step.PlaneStep.{plane_of};
ghost use Rattle.text_planes.specs.RegionTexts.{region_texts_of};
ghost use Rattle.print.specs.Decimal.{Written};
ghost use Rattle.answers.specs.sketch.Printable.{OnCanvas, SameSize};
ghost use Rattle.answers.specs.plane_lines.Planes.{plane_bytes};
ghost use Rattle.answers.specs.lines.Room.{line_bytes};
ghost use Rattle.answers.specs.drawings.DrawingLines.{plane_printed, regions_lines, regions_bytes, drawing_lines};

use arrayvec::ArrayVec;
use cells::plane::Plane;
use cells::rects::list::Rects;
use cells::texts::Texts;
use frames::outline::Outline;
use model::layer::Layer;
use model::limits::CANVAS_SIZE;

// The plane of GRID, whose regions are known; or why there is none.
fn put_step<const N: usize>(out: &mut ArrayVec<u8, N>, o: Outline, grid: Layer, rects: Rects)
    requires { (array_vec_len out.old + plane_bytes ≤ N) × OnCanvas grid × (rects.count ≤ region_count) }
    ensures { Written out.old.items out.new.items (plane_printed (plane_of o (rects_in rects.entry) (picture_of grid.entry) grid.entry.width grid.entry.height)) plane_bytes }
{
    // Work slices, as a caller in C lends them: nothing is allocated.
    let mut found = [0u32; CANVAS_SIZE];
    let mut plane = [0u32; 4160];
    match text_planes::step::make_plane(o, grid, rects, &mut found, &mut plane) {
        Ok(rows) => {
            let cells = &plane;
            crate::plane_lines::put_plane(out, Plane { cells, rows })
        }
        Err(r) => print::put_refusal(out, r),
    }
}

// The regions of THIN with their texts on TEXT, the name, and the plane.
fn put_regions<const N: usize>(
    out: &mut ArrayVec<u8, N>,
    o: Outline,
    text: Layer,
    thins: Layer,
    grid: Layer,
)
    requires { (array_vec_len out.old + regions_bytes ≤ N) × OnCanvas text × SameSize text thins × SameSize text grid }
    ensures { Written out.old.items out.new.items (regions_lines o (picture_of grid.entry) grid.entry.width grid.entry.height (region_texts_of (picture_of text.entry) (picture_of thins.entry) thins.entry.width thins.entry.height)) regions_bytes }
{
    let mut rects = [0u32; 4096];
    let mut bytes = [0u8; 61444];
    let mut spans = [0u32; 2048];
    match text_planes::read_regions(text, thins, &mut rects, &mut bytes, &mut spans) {
        Ok(g) => {
            let rects = Rects {
                numbers: &rects,
                count: g.count,
            };
            let texts = Texts {
                bytes: &bytes,
                spans: &spans,
                count: g.count,
            };
            crate::sketch::put_regions(out, rects, texts);
            crate::sketch::put_name(out, texts, o.named);
            put_step(out, o, grid, rects)
        }
        Err(r) => print::put_refusal(out, r),
    }
}

// The layers, the regions and the plane of a sheet.
pub fn put_drawing<const N: usize>(out: &mut ArrayVec<u8, N>, s: &[u8])
    requires { array_vec_len out.old + line_bytes ≤ N }
    ensures { Written out.old.items out.new.items (drawing_lines s.now) line_bytes }
{
    let mut text = [0u32; CANVAS_SIZE];
    let mut thins = [0u32; CANVAS_SIZE];
    let mut bodies = [0u32; CANVAS_SIZE];
    let mut grid = [0u32; CANVAS_SIZE];
    match canvas::draw_sheet(s, &mut text, &mut thins, &mut bodies, &mut grid) {
        Ok(d) => {
            let width = d.columns;
            let height = d.rows;
            let text = Layer {
                codes: &text,
                width,
                height,
            };
            let thins = Layer {
                codes: &thins,
                width,
                height,
            };
            let bodies = Layer {
                codes: &bodies,
                width,
                height,
            };
            let grid = Layer {
                codes: &grid,
                width,
                height,
            };
            crate::sketch::put_layers(out, text, thins, bodies, grid);
            put_regions(out, d.outline, text, thins, grid)
        }
        Err(r) => print::put_refusal(out, r),
    }
}
