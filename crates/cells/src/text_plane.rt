// A plane with the texts of its regions.
ghost use Rattle.cells.specs.Held.{Held};

use crate::plane::Plane;
use crate::texts::Texts;

// A plane whose regions are among those of the texts.
#[derive(Clone, Copy)]
pub struct TextPlane<'p, 'b, 's> {
    pub plane: Plane<'p>,
    pub texts: Texts<'b, 's>,
    pub ghost held: { Held plane.cells.now plane.rows texts.bytes.now texts.spans.now texts.count },
}
