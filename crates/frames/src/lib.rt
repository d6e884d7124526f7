// The frames that the walks of a cursor find.
#![tactic(auto)]

pub mod lookup;
pub mod outline;
pub mod regions;

ghost use Rattle.std.specs.Prelude.{◌≡◌, ◌+◌, ◌<◌, ◌^◌};
ghost use Rattle.model.specs.Layers.{picture_of};
ghost use Rattle.walks.specs.Frame.{Place, close_of, frame_of};
ghost use Rattle.walks.specs.Spots.{from_spot};
ghost use Rattle.walks.specs.Kinds.{thin, grid, name};
ghost use Rattle.walks.specs.declared.Direction.TheVariants.{Right, Down};
ghost use Rattle.walks.specs.along.Characters.{kind_of, along_of};
ghost use Rattle.walks.specs.declared.along.Lines.TheVariants.{Crossing};
ghost use Rattle.frames.specs.Body.{body_of};

use model::layer::Layer;
use model::{Point, Rect, Refusal};
use walks::Direction;
use walks::along::Lines;
use walks::spot::Spot;

// The four walks of a frame ended at a place; its bottom right corner is another.
fn close(at: Point, corner: Point, end: Point) -> Result<Rect, Refusal>
    requires { (corner.x + 1 < 2 ^ 64) × (corner.y + 1 < 2 ^ 64) }
    ensures { result ≡ close_of at.x at.y end.x end.y corner.x corner.y }
{
    if end == at {
        return Ok(Rect {
            left: at.x,
            top: at.y,
            right: corner.x + 1,
            bottom: corner.y + 1,
        });
    }
    Err(Refusal::RectangleNotClosed(end.x, end.y))
}

// The frame along lines that starts at a place: one cursor goes around it. It is inlined into each caller, so that its
// walks are compiled with its characters.
#[inline(always)]
fn frame(spot: Spot, lines: Lines) -> Result<Rect, Refusal>
    ensures { result ≡ from_spot (frame_of (kind_of lines)) spot.entry }
{
    let mut cursor = spot.at;
    walks::cursors::search(Direction::Right, spot.layer, &mut cursor, lines)?;
    walks::cursors::search(Direction::Down, spot.layer, &mut cursor, lines)?;
    let corner = cursor;
    walks::cursors::search(Direction::Left, spot.layer, &mut cursor, lines)?;
    walks::cursors::search(Direction::Up, spot.layer, &mut cursor, lines)?;
    close(spot.at, corner, cursor)
}

// The region that starts at a place of THIN.
pub(crate) fn recognize_region(spot: Spot) -> Result<Rect, Refusal>
    ensures { result ≡ from_spot (frame_of thin) spot.entry }
{
    frame(spot, Lines::Region)
}

// The cell of the plane that starts at a place of GRID.
pub fn recognize_rectangle(spot: Spot) -> Result<Rect, Refusal>
    ensures { result ≡ from_spot (frame_of grid) spot.entry }
{
    frame(spot, Lines::Rectangle)
}

// The box of the name, which starts in the top left corner of TEXT.
pub(crate) fn recognize_name(layer: Layer) -> Result<Rect, Refusal>
    requires { Place layer.width layer.height 0 0 }
    ensures { result ≡ frame_of name (picture_of layer.entry) layer.entry.width layer.entry.height 0 0 }
{
    let spot = Spot {
        layer,
        at: Point { x: 0, y: 0 },
    };
    frame(spot, Lines::Name)
}

// A walk from a place, on a cursor of its own.
#[inline(always)]
fn walk_from(d: Direction, spot: Spot, lines: Lines) -> Result<usize, Refusal>
    ensures { result ≡ from_spot (along_of lines d) spot.entry }
{
    let mut cursor = spot.at;
    walks::cursors::search(d, spot.layer, &mut cursor, lines)
}

// The body of the table whose main crossing stands at a place: its sides are as far off as four walks come.
pub(crate) fn recognize_body(spot: Spot) -> Result<Rect, Refusal>
    ensures { result ≡ from_spot body_of spot.entry }
{
    let up = walk_from(Direction::Up, spot, Lines::Body)?;
    let down = walk_from(Direction::Down, spot, Lines::Body)?;
    let left = walk_from(Direction::Left, spot, Lines::Body)?;
    let right = walk_from(Direction::Right, spot, Lines::Body)?;
    Ok(Rect {
        left: spot.at.x - left,
        top: spot.at.y - up,
        right: spot.at.x + right + 1,
        bottom: spot.at.y + down + 1,
    })
}

// The walk to an annotation crossing on the right of a place.
pub(crate) fn crossing_right(spot: Spot) -> Result<usize, Refusal>
    ensures { result ≡ from_spot (along_of Crossing Right) spot.entry }
{
    walk_from(Direction::Right, spot, Lines::Crossing)
}

// The walk to one below.
pub(crate) fn crossing_below(spot: Spot) -> Result<usize, Refusal>
    ensures { result ≡ from_spot (along_of Crossing Down) spot.entry }
{
    walk_from(Direction::Down, spot, Lines::Crossing)
}
