// Walks along the lines of a drawing, each kind with its own characters.
pub mod sets;

ghost use Rattle.std.specs.Prelude.{◌≡◌};
ghost use Rattle.walks.specs.Sets.{Sought};
ghost use Rattle.walks.specs.Spots.{from_spot};
ghost use Rattle.walks.specs.declared.Direction.{Direction};
ghost use Rattle.walks.specs.along.Characters.{toward, searched_of, allowed_of, along_of};

use crate::spot::Spot;
use crate::{Characters, Direction, Set};
use model::Refusal;
use model::box_drawing::*;
use sets::*;

// What is walked along: the frames of THIN, those of GRID, the box of the name, the double lines to the sides of the
// body, and those to an annotation crossing.
// A value: it picks a table of characters, and no step.
#[derive(Clone, Copy)]
pub enum Lines {
    Region,
    Rectangle,
    Name,
    Body,
    Crossing,
}

// What the walks of four directions search for and go over.
#[derive(Clone, Copy)]
struct Sides {
    right: Characters,
    down: Characters,
    left: Characters,
    up: Characters,
}

impl Sides {
    #[inline(always)]
    fn toward(self, d: Direction) -> Characters
        ensures { result ≡ toward d self.right self.down self.left self.up }
    {
        match d {
            Direction::Right => self.right,
            Direction::Down => self.down,
            Direction::Left => self.left,
            Direction::Up => self.up,
        }
    }
}

// Characters of a set of light ones, with the one that is searched first and the one of the line.
macro_rules! light {
    ($searched:ident, $wanted:ident, $allowed:ident, $line:ident) => {
        Characters {
            searched: Set {
                light: $searched,
                double: 0,
            },
            wanted: $wanted,
            allowed: Set {
                light: $allowed,
                double: 0,
            },
            line: $line,
        }
    };
}

// The same of double ones.
macro_rules! double {
    ($searched:ident, $wanted:ident, $allowed:ident, $line:ident) => {
        Characters {
            searched: Set {
                light: 0,
                double: $searched,
            },
            wanted: $wanted,
            allowed: Set {
                light: 0,
                double: $allowed,
            },
            line: $line,
        }
    };
}

// The frames of THIN; the plain corner is searched first.
const REGION: Sides = Sides {
    right: light!(TOP_RIGHT, LIGHT_DOWN_AND_LEFT, TOP, LIGHT_HORIZONTAL),
    down: light!(BOTTOM_RIGHT, LIGHT_UP_AND_LEFT, RIGHT, LIGHT_VERTICAL),
    left: light!(BOTTOM_LEFT, LIGHT_UP_AND_RIGHT, BOTTOM, LIGHT_HORIZONTAL),
    up: light!(TOP_LEFT, LIGHT_DOWN_AND_RIGHT, LEFT, LIGHT_VERTICAL),
};

// The frames of GRID; ┼ is searched first.
const RECTANGLE: Sides = Sides {
    right: light!(
        TOP_RIGHT,
        LIGHT_VERTICAL_AND_HORIZONTAL,
        ROW,
        LIGHT_HORIZONTAL
    ),
    down: light!(
        BOTTOM_RIGHT,
        LIGHT_VERTICAL_AND_HORIZONTAL,
        COLUMN,
        LIGHT_VERTICAL
    ),
    left: light!(
        BOTTOM_LEFT,
        LIGHT_VERTICAL_AND_HORIZONTAL,
        ROW,
        LIGHT_HORIZONTAL
    ),
    up: light!(
        TOP_LEFT,
        LIGHT_VERTICAL_AND_HORIZONTAL,
        COLUMN,
        LIGHT_VERTICAL
    ),
};

// The box of the name, whose bottom side has a double character too.
const NAME: Sides = Sides {
    right: light!(NAME_TOP_RIGHT, LIGHT_DOWN_AND_LEFT, ROW, LIGHT_HORIZONTAL),
    down: light!(
        NAME_BOTTOM_RIGHT,
        LIGHT_UP_AND_HORIZONTAL,
        COLUMN,
        LIGHT_VERTICAL
    ),
    left: Characters {
        searched: Set {
            light: NAME_BOTTOM_LEFT,
            double: 0,
        },
        wanted: LIGHT_VERTICAL_AND_RIGHT,
        allowed: Set {
            light: NAME_BOTTOM,
            double: NAME_BOTTOM_DOUBLE,
        },
        line: LIGHT_HORIZONTAL,
    },
    up: light!(NAME_TOP_LEFT, LIGHT_DOWN_AND_RIGHT, COLUMN, LIGHT_VERTICAL),
};

// The double lines, to the sides of the body.
const BODY: Sides = Sides {
    right: double!(
        BODY_RIGHT,
        VERTICAL_SINGLE_AND_LEFT_DOUBLE,
        TO_RIGHT,
        DOUBLE_HORIZONTAL
    ),
    down: double!(
        BODY_BOTTOM,
        UP_DOUBLE_AND_HORIZONTAL_SINGLE,
        TO_BOTTOM,
        DOUBLE_VERTICAL
    ),
    left: double!(
        BODY_LEFT,
        VERTICAL_SINGLE_AND_RIGHT_DOUBLE,
        TO_LEFT,
        DOUBLE_HORIZONTAL
    ),
    up: double!(
        BODY_TOP,
        DOWN_DOUBLE_AND_HORIZONTAL_SINGLE,
        TO_TOP,
        DOUBLE_VERTICAL
    ),
};

// The double lines, to an annotation crossing.
const ANNOTATION: Sides = Sides {
    right: double!(
        CROSSING,
        DOUBLE_VERTICAL_AND_HORIZONTAL,
        ACROSS,
        DOUBLE_HORIZONTAL
    ),
    down: double!(
        CROSSING,
        DOUBLE_VERTICAL_AND_HORIZONTAL,
        DOWN,
        DOUBLE_VERTICAL
    ),
    left: double!(
        CROSSING,
        DOUBLE_VERTICAL_AND_HORIZONTAL,
        ACROSS,
        DOUBLE_HORIZONTAL
    ),
    up: double!(
        CROSSING,
        DOUBLE_VERTICAL_AND_HORIZONTAL,
        DOWN,
        DOUBLE_VERTICAL
    ),
};

// The table of lines. It is inlined, so that a walk along known lines is compiled with its own characters alone.
#[inline(always)]
fn table_of(lines: Lines) -> Sides
    ensures { (d : Direction) → Sought (toward d result.right result.down result.left result.up) (searched_of lines d) (allowed_of lines d) }
{
    match lines {
        Lines::Region => REGION,
        Lines::Rectangle => RECTANGLE,
        Lines::Name => NAME,
        Lines::Body => BODY,
        Lines::Crossing => ANNOTATION,
    }
}

// Walks from a place of a layer along lines.
pub fn along(lines: Lines, d: Direction, spot: Spot) -> Result<usize, Refusal>
    ensures { result ≡ from_spot (along_of lines d) spot.entry }
{
    crate::go(d, spot, table_of(lines).toward(d))
}
