// The limits of a sheet, each in one place.
pub const CANVAS_ROWS: usize = 96;

pub const CANVAS_COLUMNS: usize = 160;

pub const CANVAS_SIZE: usize = 15360;

pub const REGIONS: usize = 1024;

pub const TEXT_BYTES: usize = 61440;

pub const PLANE_ROWS: usize = 64;

pub const PLANE_CELLS: usize = 64;
