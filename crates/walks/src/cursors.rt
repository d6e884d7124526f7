// A cursor that is lent, and the walks that move it.
ghost use Rattle.std.specs.Prelude.{◌≡◌};
ghost use Rattle.model.specs.Layers.{picture_of};
ghost use Rattle.walks.specs.Frame.{Place};
ghost use Rattle.walks.specs.along.Characters.{along_of};
ghost use Rattle.walks.specs.cursors.Cursor.{onward, place_after, Onward};

use crate::Direction;
use crate::along::Lines;
use crate::spot::Spot;
use model::layer::Layer;
use model::{Point, Refusal};

// The place k steps on.
fn onward(d: Direction, at: Point, k: usize) -> Point
    requires { Onward d at.x at.y k }
    ensures { result ≡ onward d at k }
{
    match d {
        Direction::Right => Point { x: at.x + k, ..at },
        Direction::Down => Point { y: at.y + k, ..at },
        Direction::Left => Point { x: at.x - k, ..at },
        Direction::Up => Point { y: at.y - k, ..at },
    }
}

// Walks in a direction and moves the cursor there; a walk that is refused leaves it where it was.
// A layer and a place come apart here and are no `Spot`: what is lent is a small `Point`, a rule of the project.
#[inline(always)]
pub fn search(
    d: Direction,
    layer: Layer,
    cursor: &mut Point,
    lines: Lines,
) -> Result<usize, Refusal>
    requires { Place layer.width layer.height cursor.old.x cursor.old.y }
    ensures cursor { cursor.new ≡ place_after d cursor.old (along_of lines d (picture_of layer.entry) layer.entry.width layer.entry.height cursor.old.x cursor.old.y) }
    ensures walked { result ≡ along_of lines d (picture_of layer.entry) layer.entry.width layer.entry.height cursor.old.x cursor.old.y }
{
    let spot = Spot { layer, at: *cursor };
    let k = crate::along::along(lines, d, spot)?;
    *cursor = onward(d, *cursor, k);
    Ok(k)
}
