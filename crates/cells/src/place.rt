// A place of a plane.

// A row and a column of a plane; a `Point` is a column and a row of a picture.
#[derive(Clone, Copy)]
pub struct Place {
    pub row: usize,
    pub col: usize,
}
