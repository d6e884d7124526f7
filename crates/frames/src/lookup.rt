// The regions as a lent run of rects, searched for the region of each frame of GRID.
// The slice of the rects is lent by the caller, in C too: its numbers and its size are fixed.
ghost use Rattle.std.specs.Prelude.{◌≡◌, ◌++◌, ◌+◌, ◌*◌, ◌<◌, ◌≤◌, ◌^◌, length, drop};
ghost use Rattle.model.specs.Layers.{picture_of};
ghost use Rattle.model.specs.Limits.{region_count};
ghost use Rattle.cells.specs.rects.Rects.{rects_in};
ghost use Rattle.walks.specs.Frame.{frame_of};
ghost use Rattle.walks.specs.Kinds.{grid};
ghost use Rattle.frames.specs.lookup.Lookup.{first_of, Numbered};
ghost use Rattle.frames.specs.lookup.Numbers.{Above, number_in, Seen, Stored, Without, WithoutAny};

use cells::rects::list::Rects;
use model::layer::Layer;
use model::limits::REGIONS;
use model::{Point, Rect};
use walks::spot::Spot;

// The rects, in row order, at the front of a run.
fn fill(run: &mut [Rect], rects: Rects)
    requires { rects.count ≤ length run.old }
    ensures { run.new ≡ rects_in rects.entry ++ drop rects.entry.count run.old }
{
    for i in 0..rects.count {
        run[i] = rects.at(i);
    }
}

// The first rect from `from` on that ends below a row, or how many there are.
fn live(run: &[Rect], from: usize, row: usize) -> usize
    requires { (from ≤ length run.now) × Above run.now from row }
    ensures { (from ≤ result) × (result ≤ length run.now) × Above run.now result row }
{
    for at in from..run.len() {
        let r = run[at];
        if row < r.bottom {
            return at;
        }
    }
    run.len()
}

// The number of the first rect that contains a frame, or how many there are. None before `from` does.
fn first_containing(run: &[Rect], from: usize, frame: Rect) -> usize
    requires { (from ≤ length run.now) × Without run.now from frame }
    ensures { result ≡ first_of run.now frame }
{
    for i in from..run.len() {
        let r = run[i];
        if r.contains(frame) {
            return i;
        }
    }
    run.len()
}

// A corner of GRID, the row under it, and the frame that starts there, if one does.
#[derive(Clone, Copy)]
struct Sought {
    at: usize,
    under: usize,
    frame: Option<Rect>,
}

// The first corner from place i on, with its frame.
fn seek(layer: Layer, i: usize) -> Sought
    requires { i < layer.height * layer.width }
    ensures { Seen (frame_of grid (picture_of layer.entry) layer.entry.width layer.entry.height) layer.entry.codes.now layer.entry.width (layer.entry.height * layer.entry.width) i result }
{
    let size = layer.height * layer.width;
    let at = crate::regions::next_corner(&layer.codes[..size], i);
    let row = at / layer.width;
    let under = row + 1;
    if size <= at {
        return Sought {
            at,
            under,
            frame: None,
        };
    }
    let corner = Point {
        x: at % layer.width,
        y: row,
    };
    let spot = Spot { layer, at: corner };
    let frame = crate::recognize_rectangle(spot).ok();
    Sought { at, under, frame }
}

// The number of a frame: that of the first rect that contains it. Where there is no frame or none contains it, how many there are.
fn number_in(run: &[Rect], from: usize, frame: Option<Rect>) -> usize
    requires { (from ≤ length run.now) × WithoutAny run.now from frame }
    ensures { result ≡ number_in run.now frame }
{
    match frame {
        Some(f) => first_containing(run, from, f),
        None => run.len(),
    }
}

// The number of a frame is stored where it starts: the next place, or `size`.
fn put_number(found: &mut [u32], at: usize, k: usize, size: usize) -> usize
    requires { (size ≤ length found.old) × (k < 2 ^ 32) }
    ensures { Stored at k size found.old found.new result }
{
    if size <= at {
        return size;
    }
    found[at] = k as u32;
    at + 1
}

// At each corner of GRID the number of the region of the frame that starts there, or how many regions there are.
pub fn number_frames(layer: Layer, rects: Rects, found: &mut [u32])
    requires { (rects.count ≤ region_count) × (layer.height * layer.width ≤ length found.old) }
    ensures { Numbered (frame_of grid (picture_of layer.entry) layer.entry.width layer.entry.height) (rects_in rects.entry) (picture_of layer.entry) layer.entry.width (layer.entry.height * layer.entry.width) found.new }
{
    let mut room = [Rect {
        left: 0,
        top: 0,
        right: 0,
        bottom: 0,
    }; REGIONS];
    fill(&mut room, rects);
    let run = &room[..rects.count];
    let size = layer.height * layer.width;
    let mut i: usize = 0;
    let mut from: usize = 0;
    // No `for`: each turn goes on behind the next corner.
    while i < size {
        let s = seek(layer, i);
        from = live(run, from, s.under);
        let k = number_in(run, from, s.frame);
        i = put_number(found, s.at, k, size);
    }
}
