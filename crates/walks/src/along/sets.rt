// The corners and sides of frames, and the double lines, as sets of box characters: bit k is for the character 0x2500 + k in a set of light
// ones, for 0x2540 + k in a set of double ones.

// THIN and GRID: the corners of a region, and of a cell of the plane: ┌ ├ ┬ ┼,
pub const TOP_LEFT: u64 = 0x1000_1000_1000_1000;

// ┐ ┤ ┬ ┼,
pub const TOP_RIGHT: u64 = 0x1000_1010_0001_0000;

// ┘ ┤ ┴ ┼,
pub const BOTTOM_RIGHT: u64 = 0x1010_0010_0100_0000;

// └ ├ ┴ ┼.
pub const BOTTOM_LEFT: u64 = 0x1010_0000_1010_0000;

// THIN: the sides of a region: ─ ┴,
pub const TOP: u64 = 0x0010_0000_0000_0001;

// │ ├,
pub const RIGHT: u64 = 0x0000_0000_1000_0004;

// ─ ┬,
pub const BOTTOM: u64 = 0x0000_1000_0000_0001;

// │ ┤.
pub const LEFT: u64 = 0x0000_0010_0000_0004;

// GRID: the sides of a cell, at which no line ends, and of the name's box: ─ and │.
pub const ROW: u64 = 0x0000_0000_0000_0001;

pub const COLUMN: u64 = 0x0000_0000_0000_0004;

// TEXT: the corners of the name's box: ┌,
pub const NAME_TOP_LEFT: u64 = 0x0000_0000_0000_1000;

// ┐,
pub const NAME_TOP_RIGHT: u64 = 0x0000_0000_0001_0000;

// ┴ ┤ ┼,
pub const NAME_BOTTOM_RIGHT: u64 = 0x1010_0010_0000_0000;

// ├;
pub const NAME_BOTTOM_LEFT: u64 = 0x0000_0000_1000_0000;

// and its bottom side, which has the table's own top side in it: ─ ┬, and the double ╥.
pub const NAME_BOTTOM: u64 = 0x0000_1000_0000_0001;

pub const NAME_BOTTOM_DOUBLE: u64 = 0x0000_0020_0000_0000;

// TEXT: where the double lines come to the sides of the body: ╥,
pub const BODY_TOP: u64 = 0x0000_0020_0000_0000;

// ╨,
pub const BODY_BOTTOM: u64 = 0x0000_0100_0000_0000;

// ╞,
pub const BODY_LEFT: u64 = 0x0000_0000_4000_0000;

// ╡.
pub const BODY_RIGHT: u64 = 0x0000_0002_0000_0000;

// On the way there: ║ ╫ ╟ ╢,
pub const TO_TOP: u64 = 0x0000_0804_8002_0000;

// and ╬ too,
pub const TO_BOTTOM: u64 = 0x0000_1804_8002_0000;

// ═ ╪ ╧ ╤,
pub const TO_LEFT: u64 = 0x0000_0490_0001_0000;

// and ╬ too.
pub const TO_RIGHT: u64 = 0x0000_1490_0001_0000;

// An annotation crossing ╬, and on the way there: ═ ╪,
pub const CROSSING: u64 = 0x0000_1000_0000_0000;

pub const ACROSS: u64 = 0x0000_0400_0001_0000;

// ║ ╫.
pub const DOWN: u64 = 0x0000_0800_0002_0000;
