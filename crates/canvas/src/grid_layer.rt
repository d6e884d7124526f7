// The layer GRID from BODY: the lines of the body are carried across it.
ghost use Rattle.std.specs.Prelude.{◌++◌, ◌≡◌, ℕ, ◌+◌, ◌*◌, ◌<◌, ◌≤◌, ◌^◌, eqb, length, get_or, set, take, drop};
ghost use Rattle.lists.specs.Line.{placed};
ghost use Rattle.lists.specs.OneOf.{any_at};
ghost use Rattle.lists.specs.Picture.{canvas};
ghost use Rattle.model.specs.Layers.{picture_of};
ghost use Rattle.canvas.specs.thin_layer.Sizes.{BodyIn};
ghost use Rattle.canvas.specs.grid_layer.Grid.{carried_code, carried_layers, grid_picture};
ghost use Rattle.canvas.specs.grid_layer.Passes.{place_in, InLine, LineStays, line_carried, lines_carried};

pub mod line;

use line::Line;
use model::Rect;
use model::box_drawing::*;
use model::layer::Layer;

// The characters of a direction: the line that is carried on, the line that it crosses, and its two ends.
#[derive(Clone, Copy)]
pub struct Stroke {
    pub line: u32,
    pub crossed: u32,
    pub first: u32,
    pub last: u32,
}

const ACROSS: Stroke = Stroke {
    line: LIGHT_HORIZONTAL,
    crossed: LIGHT_VERTICAL,
    first: LIGHT_VERTICAL_AND_RIGHT,
    last: LIGHT_VERTICAL_AND_LEFT,
};

const DOWN: Stroke = Stroke {
    line: LIGHT_VERTICAL,
    crossed: LIGHT_HORIZONTAL,
    first: LIGHT_DOWN_AND_HORIZONTAL,
    last: LIGHT_UP_AND_HORIZONTAL,
};

// The character at place k of a line, after the line is carried across.
fn carried_code(d: Stroke, l: Line, k: usize, c: u32) -> u32
    requires { k < l.count }
    ensures { result ≡ carried_code d l.off l.count k c }
{
    if c == d.crossed {
        if k == 0 {
            return d.first;
        }
        if k + 1 == l.count {
            return d.last;
        }
        return LIGHT_VERTICAL_AND_HORIZONTAL;
    }
    if c == d.last {
        if k + 1 < l.count {
            return LIGHT_VERTICAL_AND_HORIZONTAL;
        }
        return c;
    }
    if c == d.first {
        if 0 < l.off + k {
            return LIGHT_VERTICAL_AND_HORIZONTAL;
        }
        return c;
    }
    if c == SPACE {
        return d.line;
    }
    c
}

// The four layers of a character, with GRID carried across.
fn carried(c: [u32; 4], d: Stroke, l: Line, k: usize) -> [u32; 4]
    requires { k < l.count }
    ensures { result ≡ carried_layers d l.off l.count k c }
{
    let [text, thin, body, grid] = c;
    [text, thin, body, carried_code(d, l, k, grid)]
}

// Whether a line has a character.
fn has_code(s: &[u32], l: Line, code: u32) -> bool
    requires { InLine l (length s.now) }
    ensures { result ≡ any_at (λ k. eqb (get_or s.now (place_in l k) 0) code) l.count }
{
    for k in 0..l.count {
        if s[l.place(k)] == code {
            return true;
        }
    }
    false
}

// The character at place k of a line. The layers below GRID, which are not read, are blank in it.
fn carry_at(grid: &mut [u32], d: Stroke, l: Line, k: usize)
    requires { (k < l.count) × (place_in l k < length grid.old) }
    ensures { grid.new ≡ set grid.old (place_in l k) (carried_code d l.off l.count k (get_or grid.old (place_in l k) 0)) }
{
    let at = l.place(k);
    let c = carried([SPACE, SPACE, SPACE, grid[at]], d, l, k);
    grid[at] = c[3];
}

// A line that holds a character of its stroke is carried across. Most of its characters are that one, and stay.
fn carry_line(grid: &mut [u32], d: Stroke, l: Line)
    requires by_index { InLine l (length grid.old) }
    requires line_stays { LineStays d }
    ensures { grid.new ≡ line_carried d l.off (place_in l) l.count grid.old }
{
    if has_code(grid, l, d.line) {
        for k in 0..l.count {
            if grid[l.place(k)] != d.line {
                carry_at(grid, d, l, k);
            }
        }
    }
}

// Each of m lines, of which `l` is the first, and whose first characters stand `across` apart.
fn carry_lines(grid: &mut [u32], d: Stroke, l: Line, across: usize, m: usize)
    requires by_index { (j k : ℕ) → j < m → k < l.count → placed l.base across l.stride j k < length grid.old }
    requires n_nonzero { 0 < l.count }
    requires line_stays { LineStays d }
    ensures { grid.new ≡ lines_carried d l.off (placed l.base across l.stride) m l.count grid.old }
{
    for j in 0..m {
        let mut line = l;
        line.base += j * across;
        carry_line(grid, d, line);
    }
}

// A layer's characters become those of another, one by one: as `lists::put_bytes` says.
fn copy_layer(src: Layer, dst: &mut [u32])
    requires { src.height * src.width ≤ length dst.old }
    ensures { dst.new ≡ take (src.entry.height * src.entry.width) src.entry.codes.now ++ drop (src.entry.height * src.entry.width) dst.old }
{
    let n = src.height * src.width;
    for i in 0..n {
        dst[i] = src.codes[i];
    }
}

// GRID of BODY: the lines of the body are carried across it.
pub(crate) fn make_grid(bodies: Layer, grid: &mut [u32], r: Rect)
    requires sizes { bodies.height * bodies.width ≤ length grid.old }
    requires body { BodyIn bodies.width bodies.height r }
    ensures { canvas bodies.entry.width bodies.entry.height grid.new ≡ grid_picture r (picture_of bodies.entry) }
{
    let width = bodies.width;
    let columns = r.right - r.left;
    let lines = r.bottom - r.top;
    copy_layer(bodies, grid);
    let base = r.top * width + r.left;
    let row = Line {
        base,
        stride: 1,
        count: columns,
        off: r.left,
    };
    carry_lines(grid, ACROSS, row, width, lines);
    let column = Line {
        base,
        stride: width,
        count: lines,
        off: 0,
    };
    carry_lines(grid, DOWN, column, 1, columns);
}
