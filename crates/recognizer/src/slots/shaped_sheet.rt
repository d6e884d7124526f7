// A sheet with what is known of it.
ghost use Rattle.std.specs.Prelude.{◌≤◌, length};
ghost use Rattle.model.specs.Limits.{text_bytes};
ghost use Rattle.clauses.specs.Told.{ShapeFits};

use cells::text_plane::TextPlane;
use clauses::Shape;

// An upright sheet, its shape and its number of rules, for which it has the rows; its texts are not too long for a record.
#[derive(Clone, Copy)]
pub struct ShapedSheet<'p, 'b, 's> {
    pub sheet: TextPlane<'p, 'b, 's>,
    pub shape: Shape,
    pub rules: usize,
    pub ghost few: { length sheet.texts.bytes.now ≤ text_bytes },
    pub ghost fits: { ShapeFits shape sheet.plane.rows rules },
}
