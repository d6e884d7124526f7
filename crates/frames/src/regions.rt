// The regions of THIN, in row order, as rects in a slice of four numbers each.
// The slice of the rects is lent by the caller, in C too: its numbers and its size are fixed. A writer of slice and number
// is no plainer: two functions hand them on, each answers the next number, and that is what is told in the end.
// `SmallSizes` is no fact of every `Layer`, of which no more is asked than `sized`: here numbers of 32 bits hold a rect.
ghost use Rattle.std.specs.Prelude.{◌≡◌, [], ◌+◌, ◌*◌, ◌<◌, ◌≤◌, length};
ghost use Rattle.std.specs.List.{filter};
ghost use Rattle.lists.specs.Answer.{each};
ghost use Rattle.lists.specs.OneOf.{any_at};
ghost use Rattle.model.specs.Layers.{picture_of};
ghost use Rattle.model.specs.Limits.{region_count};
ghost use Rattle.cells.specs.rects.Rects.{rects_of};
ghost use Rattle.walks.specs.Frame.{frame_of};
ghost use Rattle.walks.specs.Kinds.{thin};
ghost use Rattle.frames.specs.regions.Regions.{is_corner, corners_of, add_region, regions_of};
ghost use Rattle.frames.specs.regions.Corners.{corner_in, Seeking, NextCorner};
ghost use Rattle.frames.specs.regions.Slices.{regions_in, SmallSizes};
ghost use Rattle.frames.specs.regions.Within.{add_within};

use model::box_drawing::*;
use model::layer::Layer;
use model::limits::REGIONS;
use model::{Point, Refusal};
use walks::spot::Spot;

// Whether a frame starts at a character. The four corners differ in bits 4 and 5 alone.
fn is_corner(code: u32) -> bool
    ensures { result ≡ is_corner code }
{
    code & 0xFFFF_FFCF == LIGHT_DOWN_AND_RIGHT
}

// Whether a corner stands at one of the four places from k on. They are compared at once.
fn in_four(codes: &[u32], k: usize) -> bool
    requires { k + 4 ≤ length codes.now }
    ensures { result ≡ any_at (λ j. corner_in codes.now (k + j)) 4 }
{
    let a = codes[k];
    let b = codes[k + 1];
    let c = codes[k + 2];
    let d = codes[k + 3];
    is_corner(a) | is_corner(b) | is_corner(c) | is_corner(d)
}

// Past fours of places from i on in which no corner stands.
fn skip_fours(codes: &[u32], i: usize) -> usize
    requires { i ≤ length codes.now }
    ensures { Seeking (corner_in codes.now) (length codes.now) i result }
{
    let mut k = i;
    // No `for`: each turn goes on by four places, and where it ends is the answer.
    while 4 <= codes.len() - k {
        if in_four(codes, k) {
            return k;
        }
        k += 4;
    }
    k
}

// The first corner from place i on, or how many places there are.
pub fn next_corner(codes: &[u32], i: usize) -> usize
    requires { i ≤ length codes.now }
    ensures { NextCorner (corner_in codes.now) (length codes.now) i result }
{
    for k in skip_fours(codes, i)..codes.len() {
        if is_corner(codes[k]) {
            return k;
        }
    }
    codes.len()
}

// How many corners a list has.
fn corners_in(codes: &[u32]) -> usize
    ensures { result ≡ length (filter is_corner codes.now) }
{
    codes.iter().filter(|c| is_corner(**c)).count()
}

// The corners of a layer.
fn count_corners(layer: Layer) -> usize
    ensures { result ≡ length (corners_of (picture_of layer.entry) layer.entry.width layer.entry.height) }
{
    corners_in(&layer.codes[..layer.height * layer.width])
}

// The region whose corner stands at place i, as rect n.
fn add_region(layer: Layer, i: usize, rects: &mut [u32], n: usize) -> Result<usize, Refusal>
    requires { SmallSizes layer.width layer.height × (i < layer.height * layer.width) × (n * 4 + 4 ≤ length rects.old) }
    ensures { regions_in result rects.new ≡ add_region (frame_of thin (picture_of layer.entry) layer.entry.width layer.entry.height) layer.entry.width i (rects_of rects.old n) }
{
    let corner = Point {
        x: i % layer.width,
        y: i / layer.width,
    };
    let spot = Spot { layer, at: corner };
    let r = crate::recognize_region(spot)?;
    cells::rects::put_rect(rects, n, r);
    Ok(n + 1)
}

// The same if there may be one more.
fn add_within(layer: Layer, i: usize, rects: &mut [u32], n: usize) -> Result<usize, Refusal>
    requires { SmallSizes layer.width layer.height × (i < layer.height * layer.width) × (region_count * 4 ≤ length rects.old) }
    ensures { regions_in result rects.new ≡ add_within (frame_of thin (picture_of layer.entry) layer.entry.width layer.entry.height) layer.entry.width i (rects_of rects.old n) }
{
    if REGIONS <= n {
        return Err(Refusal::OverLimit);
    }
    add_region(layer, i, rects, n)
}

// The regions of a layer, as many as there may be.
fn regions_within(layer: Layer, rects: &mut [u32]) -> Result<usize, Refusal>
    requires { SmallSizes layer.width layer.height × (region_count * 4 ≤ length rects.old) }
    ensures { regions_in result rects.new ≡ each (add_within (frame_of thin (picture_of layer.entry) layer.entry.width layer.entry.height) layer.entry.width) (corners_of (picture_of layer.entry) layer.entry.width layer.entry.height) [] }
{
    let size = layer.height * layer.width;
    let codes = &layer.codes[..size];
    let mut i = next_corner(codes, 0);
    let mut n = 0;
    // No `for`: each turn goes on to the next corner.
    while i < size {
        n = add_within(layer, i, rects, n)?;
        i = next_corner(codes, i + 1);
    }
    Ok(n)
}

// The regions of a layer. Corners are counted only where a refusal asks whether they are too many.
pub fn regions(layer: Layer, rects: &mut [u32]) -> Result<usize, Refusal>
    requires { SmallSizes layer.width layer.height × (region_count * 4 ≤ length rects.old) }
    ensures { regions_in result rects.new ≡ regions_of (picture_of layer.entry) layer.entry.width layer.entry.height }
{
    match regions_within(layer, rects) {
        Ok(n) => Ok(n),
        Err(r) => {
            if REGIONS < count_corners(layer) {
                return Err(Refusal::OverLimit);
            }
            Err(r)
        }
    }
}
