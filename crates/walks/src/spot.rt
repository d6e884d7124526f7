// A layer and a place of it.
ghost use Rattle.walks.specs.Frame.{Place};

use model::Point;
use model::layer::Layer;

// A place of a layer, from which walks go.
#[derive(Clone, Copy)]
pub struct Spot<'a> {
    pub layer: Layer<'a>,
    pub at: Point,
    pub ghost inside: { Place layer.width layer.height at.x at.y },
}
