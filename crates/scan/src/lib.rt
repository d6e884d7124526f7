// From the bytes of a sheet to the layers TEXT and BODY.
// Places are indices into the whole text, as in `utf8`.
#![tactic(auto)]

pub mod line_checks;
pub mod sheet_rows;
pub mod text_lines;

ghost use Rattle.std.specs.Prelude.{◌≡◌, map, ◌+◌, ◌*◌, ◌≤◌, length, replicate};
ghost use Rattle.lists.specs.Put.{put};
ghost use Rattle.model.specs.Limits.{canvas_size};
ghost use Rattle.characters.specs.white_space.Lines.{codes_at};
ghost use Rattle.scan.specs.sheet_rows.Found.{rows_in, Counted};
ghost use Rattle.scan.specs.sheet_rows.Rows.{rows_at, widest};
ghost use Rattle.scan.specs.Rows.{fill, blank, flat};
ghost use Rattle.scan.specs.Canvas.{size_of, text_in, blanks_in, scanned_in, Ended, ValidIn};

use crate::sheet_rows::{Extent, Row};
use arrayvec::ArrayVec;
use model::limits::{CANVAS_COLUMNS, CANVAS_ROWS};
use model::{Refusal, box_drawing};

// The code points of a row, into out from `base` on.
fn put_codes(s: &[u8], row: Row, out: &mut [u32], base: usize)
    requires { (row.count ≡ length (codes_at s.now row.from row.count)) × (base + row.count ≤ length out.old) }
    ensures { out.new ≡ put out.old base (codes_at s.now row.from row.count) }
{
    let mut p = row.from;
    for i in 0..row.count {
        let d = characters::code_points::known(s, p);
        out[base + i] = d.code;
        p += d.bytes;
    }
}

// A code point, n times, into out from `base` on.
fn put_same(out: &mut [u32], base: usize, n: usize, code: u32)
    requires { base + n ≤ length out.old }
    ensures { out.new ≡ put out.old base (replicate n code) }
{
    out[base..base + n].fill(code);
}

// A row, filled to `width`: its code points into TEXT, a blank for each into BODY.
fn put_row(s: &[u8], row: Row, width: usize, text: &mut [u32], body: &mut [u32], base: usize)
    requires { (row.count ≡ length (codes_at s.now row.from row.count)) × (row.count ≤ width) × (base + width ≤ length text.old) × (base + width ≤ length body.old) }
    ensures text { text.new ≡ put text.old base (fill width (codes_at s.now row.from row.count)) }
    ensures body { body.new ≡ put body.old base (fill width (blank (codes_at s.now row.from row.count))) }
{
    let count = row.count;
    put_codes(s, row, text, base);
    put_same(text, base + count, width - count, box_drawing::LIGHT_SHADE);
    put_same(body, base, count, box_drawing::SPACE);
    put_same(body, base + count, width - count, box_drawing::LIGHT_SHADE);
}

// The rows into both layers, each filled to `width`.
fn write_rows(s: &[u8], rows: &[Row], width: usize, text: &mut [u32], body: &mut [u32])
    requires { Counted s.now rows.now (length rows.now) × (widest (rows_in s.now rows.now (length rows.now)) ≤ width) × (length rows.now * width ≤ length text.old) × (length rows.now * width ≤ length body.old) }
    ensures text { text.new ≡ put text.old 0 (flat width (rows_in s.now rows.now (length rows.now))) }
    ensures body { body.new ≡ put body.old 0 (flat width (map blank (rows_in s.now rows.now (length rows.now)))) }
{
    for r in 0..rows.len() {
        put_row(s, rows[r], width, text, body, r * width);
    }
}

// Scans the first sheet in a text from an index on, into the layers TEXT and BODY.
pub fn scan(s: &[u8], from: usize, text: &mut [u32], body: &mut [u32]) -> Result<Extent, Refusal>
    requires { (from ≤ length s.now) × (canvas_size ≤ length text.old) × (canvas_size ≤ length body.old) }
    ensures answer { scanned_in result ≡ size_of (rows_at s.now from) }
    ensures end { Ended result s.now from }
    ensures valid { ValidIn result s.now from }
    ensures layer { text.new ≡ text_in (rows_at s.now from) text.old }
    ensures body { body.new ≡ blanks_in (rows_at s.now from) body.old }
{
    let start = crate::sheet_rows::sheet_start(s, from);
    let mut kept: ArrayVec<Row, CANVAS_ROWS> = ArrayVec::new();
    let m = crate::sheet_rows::measure(s, start, &mut kept);
    let rows = m.rows;
    let columns = m.columns;
    if CANVAS_ROWS < rows {
        return Err(Refusal::CanvasTooLarge(rows, columns));
    }
    if CANVAS_COLUMNS < columns {
        return Err(Refusal::CanvasTooLarge(rows, columns));
    }
    write_rows(s, kept.as_slice(), columns, text, body);
    Ok(m)
}
