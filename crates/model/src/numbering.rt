// A refusal as N, A and B.
ghost use Rattle.std.specs.Prelude.{◌≡◌};

use crate::{Numbers, Refusal};

fn numbered(n: u64, a: u64, b: u64) -> Numbers
    ensures { result ≡ record { n = n; a = a; b = b } }
{
    Numbers { n, a, b }
}

impl From<Refusal> for Numbers {
    ghost use Rattle.std.specs.Prelude.{◌≡◌};
    ghost use Rattle.model.specs.Refusals.{numbers};

    ghost from_gives = { λ r x. x ≡ numbers r };

    fn from(refusal: Refusal) -> Numbers {
        match refusal {
            Refusal::InvalidUtf8(index) => numbered(1, index as u64, 0),
            Refusal::CanvasTooLarge(rows, columns) => numbered(2, rows as u64, columns as u64),
            Refusal::CharactersNotFound(code) => numbered(3, code as u64, 0),
            Refusal::CharacterNotAllowed(code) => numbered(4, code as u64, 0),
            Refusal::RectangleNotClosed(column, row) => numbered(5, column as u64, row as u64),
            Refusal::RegionNotFound(left, top) => numbered(6, left as u64, top as u64),
            Refusal::OverLimit => numbered(7, 0, 0),
            Refusal::PlaneEmpty => numbered(8, 0, 0),
            Refusal::NoMainCrossing => numbered(9, 0, 0),
            Refusal::PlaneMalformed => numbered(10, 0, 0),
            Refusal::InvalidRuleNumber(number) => numbered(11, number, 0),
            Refusal::ExpectedLeftBelow => numbered(12, 0, 0),
            Refusal::ExpectedTopLeft => numbered(13, 0, 0),
            Refusal::ExpectedRightAfter => numbered(14, 0, 0),
            Refusal::ExpectedBottomLeft => numbered(15, 0, 0),
            Refusal::ExpectedNoRuleNumbers => numbered(16, 0, 0),
            Refusal::CrossTab => numbered(17, 0, 0),
            Refusal::CellOutOfRange(row, column) => numbered(18, row as u64, column as u64),
            Refusal::CellNotRegion(row, column) => numbered(19, row as u64, column as u64),
            Refusal::ClauseRows(rows) => numbered(20, rows as u64, 0),
            Refusal::InvalidInputExpressions => numbered(21, 0, 0),
            Refusal::InvalidOutputExpressions => numbered(22, 0, 0),
            Refusal::NoOutputClause => numbered(23, 0, 0),
            Refusal::TooManyOutputRows => numbered(24, 0, 0),
            Refusal::InvalidSize(check) => numbered(25, check as u64, 0),
            Refusal::LentPlaneMalformed => numbered(26, 0, 0),
            Refusal::OutputSliceShort(bytes) => numbered(27, bytes as u64, 0),
            Refusal::WorkSliceShort(slice, length) => numbered(28, slice as u64, length as u64),
        }
    }
}
