// Where the hit policy stands in a plane, and which way its sheet is laid out.
ghost use Rattle.std.specs.Prelude.{◌≡◌, ◌<◌};
ghost use Rattle.cells.specs.Held.{Numbered};
ghost use Rattle.cells.specs.Plane.{row_in};
ghost use Rattle.cells.specs.Slices.{plane_of, text_of};
ghost use Rattle.plane.specs.placement.Placement.{policy_in, corner_policy, bottom_left, placement_of};
ghost use Rattle.plane.specs.placement.Orientation.{holds, as_rows, as_columns, as_cross_tab, oriented_by, oriented_of};

use crate::rule_numbers::Line;
use cells::plane::Plane;
use cells::text_plane::TextPlane;
use cells::texts::Texts;
use model::{Cell, HitPolicy, HitPolicyPlacement, Orientation, Refusal, RuleNumbersPlacement};

// The hit policy that the text of a cell's region is.
fn policy_in(texts: Texts, c: Cell) -> Option<HitPolicy>
    requires { Numbered texts.count c }
    ensures { result ≡ policy_in (text_of texts.entry) c }
{
    crate::hit_policies::hit_policy(texts.of(c)?)
}

// The hit policy in the first cell of a row.
fn corner_policy(sheet: TextPlane, row: usize) -> Result<Option<HitPolicy>, Refusal>
    requires { row < sheet.plane.rows }
    ensures { result ≡ corner_policy (text_of sheet.entry.texts) (Some (row_in sheet.entry.plane.cells.now row)) }
{
    match crate::rule_numbers::slot_at(sheet.plane, Line::Row(row), 0) {
        Some(c) => Ok(policy_in(sheet.texts, c)),
        None => Err(Refusal::PlaneMalformed),
    }
}

// The hit policy in the last row.
fn bottom_left(sheet: TextPlane) -> Result<HitPolicyPlacement, Refusal>
    requires { 0 < sheet.plane.rows }
    ensures { result ≡ bottom_left (text_of sheet.entry.texts) (plane_of sheet.entry.plane) }
{
    let plane = sheet.plane;
    let p = corner_policy(sheet, plane.rows - 1)?;
    match p {
        Some(h) => Ok(HitPolicyPlacement::BottomLeft(h)),
        None => Ok(HitPolicyPlacement::NotPresent),
    }
}

// Where the hit policy stands.
fn hit_policy_placement(sheet: TextPlane) -> Result<HitPolicyPlacement, Refusal>
    ensures { result ≡ placement_of (text_of sheet.entry.texts) (plane_of sheet.entry.plane) }
{
    let plane = sheet.plane;
    if plane.rows == 0 {
        return Err(Refusal::PlaneEmpty);
    }
    let p = corner_policy(sheet, 0)?;
    match p {
        Some(h) => Ok(HitPolicyPlacement::TopLeft(h)),
        None => bottom_left(sheet),
    }
}

// Whether a cell of a kind stands in a plane.
fn holds(plane: Plane, kind: Cell) -> bool
    ensures { result ≡ holds kind (plane_of plane.entry) }
{
    plane.spot_of(kind).is_some()
}

// Which way a sheet is laid out, its hit policy, and how many rules it has.
#[derive(Clone, Copy)]
pub struct Oriented {
    pub orientation: Orientation,
    pub policy: HitPolicy,
    pub rules: u64,
}

fn as_rows(h: HitPolicy, m: RuleNumbersPlacement) -> Result<Oriented, Refusal>
    ensures { result ≡ as_rows h m }
{
    match m {
        RuleNumbersPlacement::LeftBelow(rules) => Ok(Oriented {
            orientation: Orientation::RulesAsRows,
            policy: h,
            rules,
        }),
        RuleNumbersPlacement::RightAfter(_) => { Err(Refusal::ExpectedLeftBelow) }
        RuleNumbersPlacement::NotPresent => Err(Refusal::ExpectedLeftBelow),
    }
}

fn as_columns(h: HitPolicy, m: RuleNumbersPlacement) -> Result<Oriented, Refusal>
    ensures { result ≡ as_columns h m }
{
    match m {
        RuleNumbersPlacement::LeftBelow(_) => { Err(Refusal::ExpectedRightAfter) }
        RuleNumbersPlacement::RightAfter(rules) => Ok(Oriented {
            orientation: Orientation::RulesAsColumns,
            policy: h,
            rules,
        }),
        RuleNumbersPlacement::NotPresent => { Err(Refusal::ExpectedRightAfter) }
    }
}

fn as_cross_tab(m: RuleNumbersPlacement) -> Result<Oriented, Refusal>
    ensures { result ≡ as_cross_tab m }
{
    match m {
        RuleNumbersPlacement::LeftBelow(_) => { Err(Refusal::ExpectedNoRuleNumbers) }
        RuleNumbersPlacement::RightAfter(_) => { Err(Refusal::ExpectedNoRuleNumbers) }
        RuleNumbersPlacement::NotPresent => Err(Refusal::CrossTab),
    }
}

// A table of facts, and no switch.
// By the crossings that there are, the policy's place and the numbers'.
fn oriented_by(
    horizontal: bool,
    vertical: bool,
    p: HitPolicyPlacement,
    m: RuleNumbersPlacement,
) -> Result<Oriented, Refusal>
    ensures { result ≡ oriented_by horizontal vertical p m }
{
    if horizontal {
        return match p {
            HitPolicyPlacement::TopLeft(h) => as_rows(h, m),
            HitPolicyPlacement::BottomLeft(_) => { Err(Refusal::ExpectedTopLeft) }
            HitPolicyPlacement::NotPresent => Err(Refusal::ExpectedTopLeft),
        };
    }
    if vertical {
        return match p {
            HitPolicyPlacement::TopLeft(_) => { Err(Refusal::ExpectedBottomLeft) }
            HitPolicyPlacement::BottomLeft(h) => as_columns(h, m),
            HitPolicyPlacement::NotPresent => { Err(Refusal::ExpectedBottomLeft) }
        };
    }
    match p {
        HitPolicyPlacement::TopLeft(h) => as_rows(h, m),
        HitPolicyPlacement::BottomLeft(h) => as_columns(h, m),
        HitPolicyPlacement::NotPresent => as_cross_tab(m),
    }
}

// The orientation of a plane, with its policy and its rule count.
pub(crate) fn orient(sheet: TextPlane) -> Result<Oriented, Refusal>
    ensures { result ≡ oriented_of (text_of sheet.entry.texts) (plane_of sheet.entry.plane) }
{
    let plane = sheet.plane;
    let p = hit_policy_placement(sheet)?;
    let m = crate::rule_numbers::rule_numbers(sheet)?;
    let horizontal = holds(plane, Cell::HorizontalDoubleCrossing);
    let vertical = holds(plane, Cell::VerticalDoubleCrossing);
    oriented_by(horizontal, vertical, p, m)
}
