// The rule numbers of a plane: down column 0, or along the last row.
ghost use Rattle.std.specs.Prelude.{◌≡◌, ◌≤◌, ◌<◌, drop};
ghost use Rattle.model.specs.Limits.{plane_rows};
ghost use Rattle.cells.specs.Held.{Numbered};
ghost use Rattle.cells.specs.Slices.{plane_of, text_of};
ghost use Rattle.plane.specs.rule_numbers.Numbering.{number_in, place_behind, counted, counted_behind, numbers_right, right_of, rule_numbers_of};
ghost use Rattle.plane.specs.rule_numbers.Line.{line_of, slot_of, OnPlane};
ghost use Rattle.plane.specs.rule_numbers.Told.{LineHeld, PlaceFits};

use cells::plane::Plane;
use cells::text_plane::TextPlane;
use cells::texts::Texts;
use model::{Cell, Refusal, RuleNumbersPlacement};

// The number that the text of a cell's region is.
fn number_in(texts: Texts, c: Cell) -> Option<u64>
    requires { Numbered texts.count c }
    ensures { result ≡ number_in (text_of texts.entry) c }
{
    crate::numerals::rule_number(texts.of(c)?)
}

// A line of a plane: its first column, or a row.
#[derive(Clone, Copy)]
pub enum Line {
    FirstColumn,
    Row(usize),
}

// The cell at place k of a line.
pub(crate) fn slot_at(plane: Plane, line: Line, k: usize) -> Option<Cell>
    requires { OnPlane line × (k < plane_rows) }
    ensures { result ≡ slot_of plane.entry.cells.now line k }
{
    match line {
        Line::FirstColumn => {
            if 0 < plane.width(k) {
                return Some(plane.cell(k, 0));
            }
            None
        }
        Line::Row(row) => {
            if k < plane.width(row) {
                return Some(plane.cell(row, k));
            }
            None
        }
    }
}

// The place behind the first cell of a kind in a line of n.
fn place_behind(plane: Plane, line: Line, n: usize, kind: Cell) -> Result<usize, Refusal>
    requires { OnPlane line × (n ≤ plane_rows) }
    ensures place { result ≡ place_behind kind 0 (line_of plane.entry.cells.now line n) }
    ensures inside { PlaceFits result n }
{
    for k in 0..n {
        let c = slot_at(plane, line, k).ok_or(Refusal::PlaneMalformed)?;
        if kind.is_same_kind(c) {
            return Ok(k + 1);
        }
    }
    Err(Refusal::PlaneMalformed)
}

// The rule numbers of a line of n, from a place on.
fn count_numbers(sheet: TextPlane, line: Line, n: usize, from: usize) -> Result<u64, Refusal>
    requires { LineHeld sheet.plane.cells.now line n sheet.texts.count × (from ≤ n) }
    ensures { result ≡ counted (text_of sheet.entry.texts) 0 (drop from (line_of sheet.entry.plane.cells.now line n)) }
{
    let mut m: u64 = 0;
    for k in from..n {
        let c = slot_at(sheet.plane, line, k).ok_or(Refusal::PlaneMalformed)?;
        let Some(x) = number_in(sheet.texts, c) else {
            return Ok(0);
        };
        if x != m + 1 {
            return Err(Refusal::InvalidRuleNumber(x));
        }
        m = x;
    }
    Ok(m)
}

// The rule numbers behind the first cell of a kind in a line of n.
fn count_behind(sheet: TextPlane, line: Line, n: usize, kind: Cell) -> Result<u64, Refusal>
    requires { LineHeld sheet.plane.cells.now line n sheet.texts.count }
    ensures { result ≡ counted_behind (text_of sheet.entry.texts) kind (line_of sheet.entry.plane.cells.now line n) }
{
    let k = place_behind(sheet.plane, line, n, kind)?;
    count_numbers(sheet, line, n, k)
}

// Rule numbers along the last row.
fn numbers_right(sheet: TextPlane) -> Result<RuleNumbersPlacement, Refusal>
    requires { 0 < sheet.plane.rows }
    ensures { result ≡ right_of (numbers_right (text_of sheet.entry.texts) (plane_of sheet.entry.plane)) }
{
    let plane = sheet.plane;
    let last = plane.rows - 1;
    let m = count_behind(
        sheet,
        Line::Row(last),
        plane.width(last),
        Cell::VerticalOutputDoubleLine,
    )?;
    if 0 < m {
        return Ok(RuleNumbersPlacement::RightAfter(m));
    }
    Ok(RuleNumbersPlacement::NotPresent)
}

// Rule numbers down column 0, or else along the last row.
pub(crate) fn rule_numbers(sheet: TextPlane) -> Result<RuleNumbersPlacement, Refusal>
    requires { 0 < sheet.plane.rows }
    ensures { result ≡ rule_numbers_of (text_of sheet.entry.texts) (plane_of sheet.entry.plane) }
{
    let plane = sheet.plane;
    let m = count_behind(
        sheet,
        Line::FirstColumn,
        plane.rows,
        Cell::HorizontalOutputDoubleLine,
    )?;
    if 0 < m {
        return Ok(RuleNumbersPlacement::LeftBelow(m));
    }
    numbers_right(sheet)
}
