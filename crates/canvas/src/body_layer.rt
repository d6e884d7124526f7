// The layer BODY of a canvas, from THIN.
ghost use Rattle.std.specs.Prelude.{◌≡◌, ◌+◌, ◌*◌, ◌<◌, ◌≤◌, ◌^◌, length, get_or, set};
ghost use Rattle.lists.specs.Line.{store_at};
ghost use Rattle.lists.specs.Picture.{canvas};
ghost use Rattle.lists.specs.Turns.{turns};
ghost use Rattle.model.specs.Layers.{picture_of};
ghost use Rattle.canvas.specs.thin_layer.Sizes.{BodyIn};
ghost use Rattle.canvas.specs.body_layer.Body.{top_of, body_code, shaded_code, body_layers, body_picture, shaded_picture};

use model::Rect;
use model::box_drawing::*;
use model::layer::Layer;

// A character of the body's top row.
fn top_code(t: u32) -> u32
    ensures { result ≡ top_of t }
{
    match t {
        LIGHT_VERTICAL_AND_RIGHT => LIGHT_DOWN_AND_RIGHT,
        LIGHT_UP_AND_HORIZONTAL => LIGHT_HORIZONTAL,
        LIGHT_VERTICAL_AND_LEFT => LIGHT_DOWN_AND_LEFT,
        LIGHT_VERTICAL_AND_HORIZONTAL => LIGHT_DOWN_AND_HORIZONTAL,
        _ => t,
    }
}

fn body_code(top: usize, y: usize, t: u32, b: u32) -> u32
    requires { y + 1 < 2 ^ 64 }
    ensures { result ≡ body_code top y t b }
{
    if y + 1 < top {
        return LIGHT_SHADE;
    }
    if y == top {
        return top_code(t);
    }
    if top < y {
        return t;
    }
    b
}

fn shaded_code(top: usize, y: usize, g: u32) -> u32
    requires { y + 1 < 2 ^ 64 }
    ensures { result ≡ shaded_code top y g }
{
    if y + 1 < top {
        return LIGHT_SHADE;
    }
    g
}

// The four layers of a character in row y, with BODY and GRID as the BODY pass leaves them.
fn body(c: [u32; 4], top: usize, y: usize) -> [u32; 4]
    requires { y + 1 < 2 ^ 64 }
    ensures { result ≡ body_layers top y c }
{
    let [text, thin, body, grid] = c;
    [
        text,
        thin,
        body_code(top, y, thin, body),
        shaded_code(top, y, grid),
    ]
}

// The character at a place of row y. TEXT, which the pass is not handed, is blank in it.
fn body_at(thins: &[u32], bodies: &mut [u32], grid: &mut [u32], at: usize, top: usize, y: usize)
    requires { (at < length thins.now) × (at < length bodies.old) × (at < length grid.old) × (y + 1 < 2 ^ 64) }
    ensures bodies_after { bodies.new ≡ set bodies.old at (body_code top y (get_or thins.now at 0) (get_or bodies.old at 0)) }
    ensures grid_after { grid.new ≡ set grid.old at (shaded_code top y (get_or grid.old at 0)) }
{
    let c = body([SPACE, thins[at], bodies[at], grid[at]], top, y);
    // GRID first: where it stays, the compiler leaves the store out.
    grid[at] = c[3];
    bodies[at] = c[2];
}

// Row y of the body's columns, n characters from `base` on: one place in three slices, of which three parts would have to be cut.
fn body_row(
    thins: &[u32],
    bodies: &mut [u32],
    grid: &mut [u32],
    base: usize,
    n: usize,
    top: usize,
    y: usize,
)
    requires { (base + n ≤ length thins.now) × (base + n ≤ length bodies.old) × (base + n ≤ length grid.old) × (y + 1 < 2 ^ 64) }
    ensures bodies_after { bodies.new ≡ turns (store_at (λ k. base + k) (λ k. body_code top y (get_or thins.now (base + k) 0))) n bodies.old }
    ensures grid_after { grid.new ≡ turns (store_at (λ k. base + k) (λ k. shaded_code top y)) n grid.old }
{
    for k in 0..n {
        body_at(thins, bodies, grid, base + k, top, y);
    }
}

// BODY of THIN, and ░ above it in GRID.
pub(crate) fn make_body(thins: Layer, bodies: &mut [u32], grid: &mut [u32], r: Rect)
    requires sizes { (thins.height * thins.width ≤ length bodies.old) × (thins.height * thins.width ≤ length grid.old) }
    requires body { BodyIn thins.width thins.height r }
    ensures bodies_after { canvas thins.entry.width thins.entry.height bodies.new ≡ body_picture r (picture_of thins.entry) (canvas thins.entry.width thins.entry.height bodies.old) }
    ensures grid_after { canvas thins.entry.width thins.entry.height grid.new ≡ shaded_picture r (canvas thins.entry.width thins.entry.height grid.old) }
{
    let codes = thins.codes;
    let width = thins.width;
    let left = r.left;
    let top = r.top;
    let bottom = r.bottom;
    let n = r.right - left;
    for y in 0..bottom {
        body_row(codes, bodies, grid, y * width + left, n, top, y);
    }
}
