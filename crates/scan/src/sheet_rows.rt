// Where the rows of a sheet stand in its bytes, and how many and how long they are.
// Places are indices into the whole text, as in `utf8`.
ghost use Rattle.std.specs.Prelude.{[], ◌∷◌, ◌++◌, ◌≡◌, ◌≤◌, ◌<◌, length};
ghost use Rattle.arrayvec.specs.ArrayVec.{array_vec_len};
ghost use Rattle.model.specs.Limits.{canvas_rows};
ghost use Rattle.characters.specs.white_space.Lines.{ValidTo};
ghost use Rattle.characters.specs.utf8.Utf8.{SameCheck};
ghost use Rattle.scan.specs.sheet_rows.Found.{StartAt, Measured, Kept};

use crate::line_checks::ReadTo;
use arrayvec::ArrayVec;
use model::box_drawing;
use model::limits::CANVAS_ROWS;

// The first line from `from` on whose text begins with ┌, or the end.
pub(crate) fn sheet_start(s: &[u8], from: usize) -> ReadTo
    requires { from ≤ length s.now }
    ensures start { StartAt s.now from result.at }
    ensures valid { ValidTo s.now from result.at result.valid }
{
    let mut start = ReadTo {
        at: from,
        valid: from,
    };
    // No `for`: each turn goes on by a line.
    while start.at < s.len() {
        let l = crate::text_lines::line_head(s, start.at);
        if l.first == box_drawing::LIGHT_DOWN_AND_RIGHT {
            return start;
        }
        start = l.end;
    }
    start
}

// A row of a sheet: where it starts and how many code points it has.
#[derive(Clone, Copy, Default)]
pub struct Row {
    pub from: usize,
    pub count: usize,
}

// Keeps a row, if a canvas can have it.
fn keep_row(kept: &mut ArrayVec<Row, CANVAS_ROWS>, row: Row)
    ensures { array_vec_len kept.old < canvas_rows → kept.new.items ≡ kept.old.items ++ (row ∷ []) }
{
    if !kept.is_full() {
        kept.push(row);
    }
}

// How many rows a sheet has, how many code points the longest, and where the sheet ends.
#[derive(Clone, Copy)]
pub struct Extent {
    pub rows: usize,
    pub columns: usize,
    pub end: ReadTo,
}

// Measures the sheet whose first line starts at a place, and keeps its rows, as many as a canvas can have.
// They go into a vector of the caller's: one that is answered is moved, over its whole capacity.
pub fn measure(s: &[u8], start: ReadTo, kept: &mut ArrayVec<Row, CANVAS_ROWS>) -> Extent
    requires { (start.at ≤ length s.now) × (start.at < length s.now → start.valid ≡ start.at) }
    ensures measured { Measured s.now start.at result.rows result.columns result.end.at }
    ensures all { result.rows ≤ canvas_rows → array_vec_len kept.new ≡ result.rows }
    ensures kept { result.rows ≤ canvas_rows → Kept s.now start.at kept.new.items result.rows }
    ensures valid { SameCheck s.now start.valid result.end.valid }
{
    kept.clear();
    let mut end = start;
    let mut rows: usize = 0;
    let mut columns: usize = 0;
    // No `for`: each turn goes on by a line.
    while end.at < s.len() {
        let l = crate::text_lines::line_at(s, end.at);
        let count = l.rest.count;
        let last = l.rest.last;
        end = l.rest.end;
        if 0 < count {
            keep_row(
                kept,
                Row {
                    from: l.from,
                    count,
                },
            );
            rows += 1;
            columns = columns.max(count);
            if last == box_drawing::LIGHT_UP_AND_LEFT {
                return Extent { rows, columns, end };
            }
        }
    }
    Extent { rows, columns, end }
}
