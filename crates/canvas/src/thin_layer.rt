// The layer THIN of a canvas, from TEXT.
ghost use Rattle.std.specs.Prelude.{◌≡◌, ◌*◌, ◌≤◌, length};
ghost use Rattle.lists.specs.Picture.{canvas};
ghost use Rattle.model.specs.Layers.{picture_of};
ghost use Rattle.canvas.specs.thin_layer.Thin.{thin_of, thin_layers, thin_picture};

use model::box_drawing::*;
use model::layer::Layer;

// THIN's character of TEXT's.
fn thin_code(t: u32) -> u32
    ensures { result ≡ thin_of t }
{
    match t {
        LIGHT_DOWN_AND_RIGHT => t,
        LIGHT_DOWN_AND_LEFT => t,
        LIGHT_UP_AND_RIGHT => t,
        LIGHT_UP_AND_LEFT => t,
        LIGHT_DOWN_AND_HORIZONTAL => t,
        LIGHT_UP_AND_HORIZONTAL => t,
        LIGHT_HORIZONTAL => t,
        LIGHT_VERTICAL => t,
        LIGHT_VERTICAL_AND_RIGHT => t,
        LIGHT_VERTICAL_AND_HORIZONTAL => t,
        LIGHT_VERTICAL_AND_LEFT => t,
        SPACE => t,
        LIGHT_SHADE => t,
        DOWN_DOUBLE_AND_HORIZONTAL_SINGLE => LIGHT_DOWN_AND_HORIZONTAL,
        DOWN_SINGLE_AND_HORIZONTAL_DOUBLE => LIGHT_DOWN_AND_HORIZONTAL,
        DOUBLE_VERTICAL => LIGHT_VERTICAL,
        UP_DOUBLE_AND_HORIZONTAL_SINGLE => LIGHT_UP_AND_HORIZONTAL,
        UP_SINGLE_AND_HORIZONTAL_DOUBLE => LIGHT_UP_AND_HORIZONTAL,
        DOUBLE_HORIZONTAL => LIGHT_HORIZONTAL,
        VERTICAL_SINGLE_AND_RIGHT_DOUBLE => LIGHT_VERTICAL_AND_RIGHT,
        VERTICAL_DOUBLE_AND_RIGHT_SINGLE => LIGHT_VERTICAL_AND_RIGHT,
        VERTICAL_SINGLE_AND_LEFT_DOUBLE => LIGHT_VERTICAL_AND_LEFT,
        VERTICAL_DOUBLE_AND_LEFT_SINGLE => LIGHT_VERTICAL_AND_LEFT,
        VERTICAL_DOUBLE_AND_HORIZONTAL_SINGLE => LIGHT_VERTICAL_AND_HORIZONTAL,
        VERTICAL_SINGLE_AND_HORIZONTAL_DOUBLE => LIGHT_VERTICAL_AND_HORIZONTAL,
        DOUBLE_VERTICAL_AND_HORIZONTAL => LIGHT_VERTICAL_AND_HORIZONTAL,
        _ => SPACE,
    }
}

// The four layers of a character, with THIN made from TEXT.
fn thin(c: [u32; 4]) -> [u32; 4]
    ensures { result ≡ thin_layers c }
{
    let [text, _, body, grid] = c;
    [text, thin_code(text), body, grid]
}

// THIN of TEXT. A layer that the pass is not handed is blank in a character. The last character that was looked up is kept, for equal neighbours.
pub(crate) fn make_thin(text: Layer, thins: &mut [u32])
    requires { text.height * text.width ≤ length thins.old }
    ensures { canvas text.entry.width text.entry.height thins.new ≡ thin_picture text.entry.width text.entry.height (picture_of text.entry) }
{
    let codes = text.codes;
    let n = text.height * text.width;
    let mut kept = [SPACE; 4];
    for i in 0..n {
        let code = codes[i];
        if code != kept[0] {
            kept = thin([code, SPACE, SPACE, SPACE]);
        }
        thins[i] = kept[1];
    }
}
