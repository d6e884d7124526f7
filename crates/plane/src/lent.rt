// A lent plane: its check (26), and its cells and texts in the slices that the reader works with.
ghost use Rattle.std.specs.Prelude.{◌≡◌, ◌+◌, ◌*◌, ◌^◌, ◌≤◌, ◌<◌, leb, length, get_or, take, drop};
ghost use Rattle.lists.specs.Run.{build};
ghost use Rattle.model.specs.Cells.{cell_of_kind};
ghost use Rattle.model.specs.Limits.{plane_rows, plane_cells};
ghost use Rattle.cells.specs.Written.{next_row, Kept, Holds};
ghost use Rattle.characters.specs.white_space.Trim.{trim_utf8};
ghost use Rattle.cells.specs.Spans.{texts_in};
ghost use Rattle.plane.specs.lent.LentPlane.{sum, all_at, known_cell, good_part, within_limits, counts_agree, cells_known, parts_good, well_formed, cut, lent_of};
ghost use Rattle.plane.specs.lent.Lent.{lists_of};
ghost use Rattle.plane.specs.lent.Held.{CellsGood, RowsGood, PartsGood, SpansIn, Room, loaded_in, LoadedHeld};

use cells::plane_writer::PlaneWriter;
use model::limits::{PLANE_CELLS, PLANE_ROWS, REGIONS, TEXT_BYTES};
use model::{Cell, Refusal};

// A lent plane: the lengths of its rows; its cells' kinds and region numbers, one row behind the other; and its regions' texts, each a part of
// the bytes by its offset and its size.
#[derive(Clone, Copy)]
pub struct Lent<'a> {
    pub rows: &'a [u32],
    pub kinds: &'a [u8],
    pub regions: &'a [u32],
    pub offsets: &'a [u32],
    pub sizes: &'a [u32],
    pub bytes: &'a [u8],
}

// The cells of all rows.
fn total(rows: &[u32]) -> usize
    requires { length rows.now ≤ plane_rows }
    ensures { result ≡ sum rows.now }
{
    let mut n = 0;
    for &m in rows {
        n += m as usize;
    }
    n
}

// Whether no row is too long.
fn rows_fit(rows: &[u32]) -> bool
    ensures { result ≡ all_at (λ i. leb (get_or rows.now i 0) plane_cells) (length rows.now) }
{
    for i in 0..rows.len() {
        if PLANE_CELLS < rows[i] as usize {
            return false;
        }
    }
    true
}

// Whether a cell's kind is known, and its region where it has one.
fn is_known(count: usize, kind: u8, region: u32) -> bool
    ensures { result ≡ known_cell count kind region }
{
    if kind == 0 {
        return (region as usize) < count;
    }
    kind < 8
}

// Whether all cells are known.
fn cells_known(l: Lent) -> bool
    requires { length l.regions.now ≡ length l.kinds.now }
    ensures { result ≡ cells_known (length l.entry.offsets.now) l.entry.kinds.now l.entry.regions.now }
{
    for k in 0..l.kinds.len() {
        if !is_known(l.offsets.len(), l.kinds[k], l.regions[k]) {
            return false;
        }
    }
    true
}

// Whether a part of the bytes is a text.
fn is_text(bytes: &[u8], offset: usize, size: usize) -> bool
    requires { (offset < 2 ^ 32) × (size < 2 ^ 32) }
    ensures { result ≡ good_part bytes.now offset size }
{
    let end = offset + size;
    if bytes.len() < end {
        return false;
    }
    characters::code_points::validate(&bytes[offset..end]).is_ok()
}

// Whether all parts are texts.
fn parts_good(l: Lent) -> bool
    requires { length l.sizes.now ≡ length l.offsets.now }
    ensures { result ≡ parts_good l.entry.offsets.now l.entry.sizes.now l.entry.bytes.now }
{
    for k in 0..l.offsets.len() {
        if !is_text(l.bytes, l.offsets[k] as usize, l.sizes[k] as usize) {
            return false;
        }
    }
    true
}

// Whether a lent plane is within the limits.
fn is_within(l: Lent) -> bool
    ensures { result ≡ within_limits l.entry.rows.now l.entry.offsets.now l.entry.bytes.now }
{
    if PLANE_ROWS < l.rows.len() {
        return false;
    }
    if REGIONS < l.offsets.len() {
        return false;
    }
    if TEXT_BYTES < l.bytes.len() {
        return false;
    }
    rows_fit(l.rows)
}

// Whether the slices have the lengths that the rows and the regions ask for.
fn counts_agree(l: Lent) -> bool
    requires { length l.rows.now ≤ plane_rows }
    ensures { result ≡ counts_agree l.entry.rows.now l.entry.kinds.now l.entry.regions.now l.entry.offsets.now l.entry.sizes.now }
{
    let n = total(l.rows);
    if l.kinds.len() != n {
        return false;
    }
    if l.regions.len() != n {
        return false;
    }
    l.sizes.len() == l.offsets.len()
}

// Whether a lent plane is as number 26 asks.
fn is_well_formed(l: Lent) -> bool
    ensures { result ≡ well_formed (lists_of l.entry) }
{
    if !is_within(l) {
        return false;
    }
    if !counts_agree(l) {
        return false;
    }
    if !cells_known(l) {
        return false;
    }
    parts_good(l)
}

// The cell of a kind, which is a number since the caller in C lends it.
fn cell_of_kind(kind: u8, region: u32) -> Cell
    ensures { result ≡ cell_of_kind kind region }
{
    match kind {
        0 => Cell::Region(region),
        1 => Cell::VerticalOutputDoubleLine,
        2 => Cell::VerticalAnnotationDoubleLine,
        3 => Cell::HorizontalOutputDoubleLine,
        4 => Cell::HorizontalAnnotationsDoubleLine,
        5 => Cell::MainDoubleCrossing,
        6 => Cell::HorizontalDoubleCrossing,
        _ => Cell::VerticalDoubleCrossing,
    }
}

// The n cells from a place on, as the next row of the plane, not yet ended.
fn load_row(l: Lent, at: usize, n: usize, plane: &mut PlaneWriter)
    requires { CellsGood l.kinds.now l.regions.now × (at + n ≤ length l.kinds.now) × (n ≤ plane_cells) × (plane.old.rows < plane_rows) }
    ensures cells { next_row plane.new n ≡ build n (λ i. cell_of_kind (get_or l.entry.kinds.now (at + i) 0) (get_or l.entry.regions.now (at + i) 0)) }
    ensures kept { Kept plane.old plane.new }
{
    for i in 0..n {
        let c = cell_of_kind(l.kinds[at + i], l.regions[at + i]);
        plane.put_cell(i, c);
    }
}

// The rows of a lent plane.
fn load_rows(l: Lent, plane: &mut PlaneWriter)
    requires { RowsGood l.rows.now l.kinds.now l.regions.now × (plane.old.rows ≡ 0) }
    ensures rows { plane.new.rows ≡ length l.entry.rows.now }
    ensures plane { Holds plane.old plane.new (cut l.entry.rows.now (build (length l.entry.kinds.now) (λ k. cell_of_kind (get_or l.entry.kinds.now k 0) (get_or l.entry.regions.now k 0)))) }
{
    let mut at = 0;
    for row in 0..l.rows.len() {
        let n = l.rows[row] as usize;
        load_row(l, at, n, plane);
        plane.end_row(n);
        at += n;
    }
}

// Where the texts of the regions stand without white space at their ends.
// Written by index: a vector of numbers of two kinds would be no plainer, and the caller, in C too, lends the slice.
fn load_texts(l: Lent, spans: &mut [u32])
    requires { PartsGood l.offsets.now l.sizes.now l.bytes.now × (length l.offsets.now * 2 ≤ length spans.old) }
    ensures texts { texts_in l.entry.bytes.now spans.new (length l.entry.offsets.now) ≡ build (length l.entry.offsets.now) (λ k. trim_utf8 (take (get_or l.entry.sizes.now k 0) (drop (get_or l.entry.offsets.now k 0) l.entry.bytes.now))) }
    ensures inside { SpansIn l.entry.bytes.now spans.new (length l.entry.offsets.now) }
{
    for k in 0..l.offsets.len() {
        let from = l.offsets[k] as usize;
        let to = from + l.sizes[k] as usize;
        let part = characters::white_space::trim_utf8_part(l.bytes, from, to);
        spans[k * 2] = part.from as u32;
        spans[k * 2 + 1] = (part.to - part.from) as u32;
    }
}

// A lent plane, checked, in the slices of a plane and of its texts.
pub fn load(l: Lent, plane: &mut [u32], spans: &mut [u32]) -> Result<usize, Refusal>
    requires { Room plane.old spans.old }
    ensures loaded { loaded_in result plane.new l.entry.bytes.now spans.new (length l.entry.offsets.now) ≡ lent_of (lists_of l.entry) }
    ensures held { LoadedHeld result plane.new l.entry.bytes.now spans.new (length l.entry.offsets.now) }
{
    if !is_well_formed(l) {
        return Err(Refusal::LentPlaneMalformed);
    }
    let mut writer = PlaneWriter {
        cells: plane,
        rows: 0,
    };
    load_rows(l, &mut writer);
    load_texts(l, spans);
    Ok(l.rows.len())
}
