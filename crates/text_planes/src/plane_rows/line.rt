// The cells of a line row.
ghost use Rattle.model.specs.Cells.{Small};

use model::Cell;

// The cell at the double line of the outputs, the one at that of the annotations, and any other.
#[derive(Clone, Copy)]
pub struct Line {
    pub output: Cell,
    pub annotation: Cell,
    pub plain: Cell,
    pub ghost small: { Small output × Small annotation × Small plain },
}

// The line row of the main crossing.
pub const MAIN: Line = Line {
    output: Cell::MainDoubleCrossing,
    annotation: Cell::HorizontalDoubleCrossing,
    plain: Cell::HorizontalOutputDoubleLine,
};

// That of the annotation crossing below it.
pub const ANNOTATIONS: Line = Line {
    output: Cell::VerticalDoubleCrossing,
    annotation: Cell::HorizontalAnnotationsDoubleLine,
    plain: Cell::HorizontalAnnotationsDoubleLine,
};
