// From the bytes of a sheet to its outline and its four layers.
#![tactic(auto)]

pub mod body_layer;
pub mod grid_layer;
pub mod thin_layer;

ghost use Rattle.std.specs.Prelude.{◌≡◌, ◌*◌, ◌≤◌, length};
ghost use Rattle.lists.specs.Picture.{canvas};
ghost use Rattle.canvas.specs.body_layer.Body.{body_picture};
ghost use Rattle.canvas.specs.grid_layer.Grid.{grid_picture};
ghost use Rattle.model.specs.Layers.{picture_of};
ghost use Rattle.canvas.specs.thin_layer.Sizes.{BodyIn};
ghost use Rattle.canvas.specs.thin_layer.Thin.{thin_picture};
ghost use Rattle.scan.specs.sheet_rows.Rows.{rows_at};
ghost use Rattle.characters.specs.utf8.Utf8.{on_text};
ghost use Rattle.canvas.specs.Layers.{sheet_of};
ghost use Rattle.canvas.specs.Drawn.{outline_in, LayersIn, Ended, Room};

use frames::outline::Outline;
use model::layer::Layer;
use model::{Rect, Refusal};

// A canvas's rows and columns, where the text behind the sheet starts, and the outline.
#[derive(Clone, Copy)]
pub struct Drawing {
    pub rows: usize,
    pub columns: usize,
    pub end: usize,
    pub outline: Outline,
}

// THIN of TEXT, BODY of THIN, GRID of BODY.
fn make_layers(text: Layer, thins: &mut [u32], bodies: &mut [u32], grid: &mut [u32], r: Rect)
    requires sizes { (text.height * text.width ≤ length thins.old) × (text.height * text.width ≤ length bodies.old) × (text.height * text.width ≤ length grid.old) }
    requires body { BodyIn text.width text.height r }
    ensures thin { canvas text.entry.width text.entry.height thins.new ≡ thin_picture text.entry.width text.entry.height (picture_of text.entry) }
    ensures body { canvas text.entry.width text.entry.height bodies.new ≡ body_picture r (thin_picture text.entry.width text.entry.height (picture_of text.entry)) (canvas text.entry.width text.entry.height bodies.old) }
    ensures grid { canvas text.entry.width text.entry.height grid.new ≡ grid_picture r (body_picture r (thin_picture text.entry.width text.entry.height (picture_of text.entry)) (canvas text.entry.width text.entry.height bodies.old)) }
{
    crate::thin_layer::make_thin(text, thins);
    let thin = Layer {
        codes: thins,
        width: text.width,
        height: text.height,
    };
    crate::body_layer::make_body(thin, bodies, grid, r);
    let body = Layer {
        codes: bodies,
        width: text.width,
        height: text.height,
    };
    crate::grid_layer::make_grid(body, grid, r);
}

// A refusal of a text, which number 1 comes before.
fn behind_utf8(c: Result<(), usize>, r: Refusal) -> Refusal
    ensures { result ≡ on_text c Refusal.InvalidUtf8 r }
{
    match c {
        Ok(()) => r,
        Err(at) => Refusal::InvalidUtf8(at),
    }
}

// Draws the first sheet in a text that has to be well-formed. What the scan has read is not checked again.
// The work slices stand side by side: each function that hands a struct of `&mut` slices on would promise of each slice
// that the struct still lends it, as `cells` does by `SameSlice`; parameters need no such clause.
pub fn draw_sheet(
    s: &[u8],
    text: &mut [u32],
    thins: &mut [u32],
    bodies: &mut [u32],
    grid: &mut [u32],
) -> Result<Drawing, Refusal>
    requires { Room text.old thins.old bodies.old grid.old }
    ensures answer { outline_in result ≡ sheet_of s.now }
    ensures layers { LayersIn result (rows_at s.now 0) text.new thins.new bodies.new grid.new }
    ensures end { Ended result s.now 0 }
{
    let c = match scan::scan(s, 0, text, bodies) {
        Ok(c) => c,
        Err(r) => return Err(behind_utf8(characters::code_points::validate(s), r)),
    };
    scan::line_checks::validate_lines(s, c.end.valid).map_err(Refusal::InvalidUtf8)?;
    let layer = Layer {
        codes: text,
        width: c.columns,
        height: c.rows,
    };
    let outline = frames::outline::recognize_outline(layer)?;
    make_layers(layer, thins, bodies, grid, outline.body);
    Ok(Drawing {
        rows: c.rows,
        columns: c.columns,
        end: c.end.at,
        outline,
    })
}
