// The outline of a table on the TEXT layer: whether it has a name, its crossings and its body.
ghost use Rattle.std.specs.Prelude.{◌≡◌, ◌*◌, ◌<◌, eqb};
ghost use Rattle.std.specs.List.{position};
ghost use Rattle.model.specs.Layers.{picture_of};
ghost use Rattle.walks.specs.Frame.{Place};
ghost use Rattle.frames.specs.outline.Outline.{search_of, named_of, crossing_by, table_of, outline_of};
ghost use Rattle.frames.specs.outline.Answers.{WalkFits};

use model::box_drawing::*;
use model::layer::Layer;
use model::{Point, Rect, Refusal};
use walks::spot::Spot;

// Whether a name stands above the table; the main crossing's column and row; the column of the annotation crossing
// on its right and the row of that below it; the body.
// `named` is a fact of the drawing: no value hangs on it. `x` and `y` are read apart: `x` by the cells of a row of the
// plane, `y` by its rows.
#[derive(Clone, Copy)]
pub struct Outline {
    pub named: bool,
    pub x: usize,
    pub y: usize,
    pub right: Option<usize>,
    pub below: Option<usize>,
    pub body: Rect,
}

// The first place of a list at which a character stands.
fn place_of(codes: &[u32], code: u32) -> Option<usize>
    ensures { result ≡ position (λ c. eqb c code) codes.now }
{
    codes.iter().position(|c| *c == code)
}

// The first place of a layer at which a character stands.
fn search(layer: Layer, code: u32) -> Result<usize, Refusal>
    ensures { result ≡ search_of code (picture_of layer.entry) layer.entry.width layer.entry.height }
{
    let codes = &layer.codes[..layer.height * layer.width];
    place_of(codes, code).ok_or(Refusal::CharactersNotFound(code))
}

// Whether a name stands above a table whose first ╥ lies in this row.
fn name_above(layer: Layer, row: usize) -> Result<bool, Refusal>
    requires { Place layer.width layer.height 0 0 }
    ensures { result ≡ named_of (picture_of layer.entry) layer.entry.width layer.entry.height row }
{
    if row == 0 {
        return Ok(false);
    }
    crate::recognize_name(layer)?;
    Ok(true)
}

// The crossing that a walk found.
fn crossed(from: usize, walked: Result<usize, Refusal>) -> Option<usize>
    requires { WalkFits from walked }
    ensures { result ≡ crossing_by from walked }
{
    let k = walked.ok()?;
    Some(from + k)
}

// `has_name` is a fact that the answer holds.
// The table whose main crossing stands at a place.
fn recognize_table(layer: Layer, has_name: bool, cross: usize) -> Result<Outline, Refusal>
    requires { cross < layer.height * layer.width }
    ensures { result ≡ table_of (picture_of layer.entry) layer.entry.width layer.entry.height has_name cross }
{
    let main = Point {
        x: cross % layer.width,
        y: cross / layer.width,
    };
    let spot = Spot { layer, at: main };
    let body = crate::recognize_body(spot)?;
    let right = crossed(main.x, crate::crossing_right(spot));
    let below = crossed(main.y, crate::crossing_below(spot));
    Ok(Outline {
        named: has_name,
        x: main.x,
        y: main.y,
        right,
        below,
        body,
    })
}

// The outline of the table on a layer.
pub fn recognize_outline(layer: Layer) -> Result<Outline, Refusal>
    ensures { result ≡ outline_of (picture_of layer.entry) layer.entry.width layer.entry.height }
{
    search(layer, LIGHT_DOWN_AND_RIGHT)?;
    let edge = search(layer, DOWN_DOUBLE_AND_HORIZONTAL_SINGLE)?;
    let has_name = name_above(layer, edge / layer.width)?;
    let cross = search(layer, DOUBLE_VERTICAL_AND_HORIZONTAL)?;
    recognize_table(layer, has_name, cross)
}
