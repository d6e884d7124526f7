// The words of a decision table: points, rects, hit policies, placements, cells, and why a sheet is refused.
#![tactic(auto)]

ghost use Rattle.std.specs.Prelude.{◌≡◌, ◌+◌, ◌-◌, ◌<◌, ◌^◌};
ghost use Rattle.model.specs.Geometry.{contains_of};
ghost use Rattle.model.specs.Cells.{kind_of, region_of, same_kind, cell_number, turned_cell, Small};

pub mod box_drawing;
pub mod layer;
pub mod limits;
pub mod numbering;

// A place on a canvas: column x of row y.
#[derive(Clone, Copy, PartialEq, Eq)]
pub struct Point {
    pub x: usize,
    pub y: usize,
}

impl Point {
    pub fn new(x: usize, y: usize) -> Self
        ensures { (result.x ≡ x) × (result.y ≡ y) }
    {
        Self { x, y }
    }

    pub fn zero() -> Self
        ensures { (result.x ≡ 0) × (result.y ≡ 0) }
    {
        Self { x: 0, y: 0 }
    }
}

// A rectangle; right and bottom are exclusive.
#[derive(Clone, Copy)]
pub struct Rect {
    pub left: usize,
    pub top: usize,
    pub right: usize,
    pub bottom: usize,
}

impl Rect {
    // Whether the other rectangle lies in this one.
    pub fn contains(self, other: Rect) -> bool
        ensures { result ≡ contains_of self other }
    {
        if other.left < self.left {
            return false;
        }
        if other.top < self.top {
            return false;
        }
        if self.right < other.right {
            return false;
        }
        other.bottom <= self.bottom
    }

    pub fn width(self) -> usize
        ensures { result ≡ self.right - self.left }
    {
        self.right.saturating_sub(self.left)
    }

    pub fn height(self) -> usize
        ensures { result ≡ self.bottom - self.top }
    {
        self.bottom.saturating_sub(self.top)
    }

    // The same rectangle from a lower row on.
    pub fn offset_top(self, offset: usize) -> Rect
        requires { self.top + offset < 2 ^ 64 }
        ensures { result ≡ record { left = self.left; top = self.top + offset; right = self.right; bottom = self.bottom } }
    {
        Rect {
            left: self.left,
            top: self.top + offset,
            right: self.right,
            bottom: self.bottom,
        }
    }
}

// What becomes of several matching rules' outputs under the policy COLLECT.
#[derive(Clone, Copy)]
pub enum BuiltinAggregator {
    List,
    Count,
    Sum,
    Min,
    Max,
}

#[derive(Clone, Copy)]
pub enum HitPolicy {
    Unique,
    Any,
    Priority,
    First,
    Collect(BuiltinAggregator),
    OutputOrder,
    RuleOrder,
}

// Whether rules are rows or columns. (Crosstab sheets are refused.)
#[derive(Clone, Copy)]
pub enum Orientation {
    RulesAsRows,
    RulesAsColumns,
}

// Where the hit policy stands in a plane.
#[derive(Clone, Copy)]
pub enum HitPolicyPlacement {
    TopLeft(HitPolicy),
    BottomLeft(HitPolicy),
    NotPresent,
}

// Where the rule numbers stand in a plane, and how many there are.
#[derive(Clone, Copy)]
pub enum RuleNumbersPlacement {
    LeftBelow(u64),
    RightAfter(u64),
    NotPresent,
}

// A cell of a plane: a region by its number, a double line, or a crossing of double lines.
#[derive(Clone, Copy)]
pub enum Cell {
    Region(u32),
    VerticalOutputDoubleLine,
    VerticalAnnotationDoubleLine,
    HorizontalOutputDoubleLine,
    HorizontalAnnotationsDoubleLine,
    MainDoubleCrossing,
    HorizontalDoubleCrossing,
    VerticalDoubleCrossing,
}

// Why a sheet, a lent plane or a text is refused.
#[derive(Clone, Copy)]
pub enum Refusal {
    InvalidUtf8(usize),
    CanvasTooLarge(usize, usize),
    CharactersNotFound(u32),
    CharacterNotAllowed(u32),
    RectangleNotClosed(usize, usize),
    RegionNotFound(usize, usize),
    OverLimit,
    PlaneEmpty,
    NoMainCrossing,
    PlaneMalformed,
    InvalidRuleNumber(u64),
    ExpectedLeftBelow,
    ExpectedTopLeft,
    ExpectedRightAfter,
    ExpectedBottomLeft,
    ExpectedNoRuleNumbers,
    CrossTab,
    CellOutOfRange(usize, usize),
    CellNotRegion(usize, usize),
    ClauseRows(usize),
    InvalidInputExpressions,
    InvalidOutputExpressions,
    NoOutputClause,
    TooManyOutputRows,
    InvalidSize(u32),
    LentPlaneMalformed,
    OutputSliceShort(usize),
    WorkSliceShort(usize, usize),
}

// A refusal as document 01 numbers it: N, A, B.
#[derive(Clone, Copy)]
pub struct Numbers {
    pub n: u64,
    pub a: u64,
    pub b: u64,
}

// A policy's number in a record.
impl From<HitPolicy> for u32 {
    ghost use Rattle.std.specs.Prelude.{◌≡◌};
    ghost use Rattle.model.specs.Policies.{policy_number};

    ghost from_gives = { λ h n. n ≡ policy_number h };

    fn from(policy: HitPolicy) -> u32 {
        match policy {
            HitPolicy::Unique => 0,
            HitPolicy::Any => 1,
            HitPolicy::Priority => 2,
            HitPolicy::First => 3,
            HitPolicy::RuleOrder => 4,
            HitPolicy::OutputOrder => 5,
            HitPolicy::Collect(BuiltinAggregator::List) => 6,
            HitPolicy::Collect(BuiltinAggregator::Sum) => 7,
            HitPolicy::Collect(BuiltinAggregator::Count) => 8,
            HitPolicy::Collect(BuiltinAggregator::Min) => 9,
            HitPolicy::Collect(BuiltinAggregator::Max) => 10,
        }
    }
}

// An orientation's number in a record.
impl From<Orientation> for u32 {
    ghost use Rattle.std.specs.Prelude.{◌≡◌};
    ghost use Rattle.model.specs.Policies.{orientation_number};

    ghost from_gives = { λ o n. n ≡ orientation_number o };

    fn from(orientation: Orientation) -> u32 {
        match orientation {
            Orientation::RulesAsRows => 0,
            Orientation::RulesAsColumns => 1,
        }
    }
}

impl Cell {
    // The number of a cell's kind, by which two are compared: two regions are of one kind.
    fn kind(self) -> u32
        ensures { result ≡ kind_of self }
    {
        match self {
            Cell::Region(_) => 0,
            Cell::VerticalOutputDoubleLine => 1,
            Cell::VerticalAnnotationDoubleLine => 2,
            Cell::HorizontalOutputDoubleLine => 3,
            Cell::HorizontalAnnotationsDoubleLine => 4,
            Cell::MainDoubleCrossing => 5,
            Cell::HorizontalDoubleCrossing => 6,
            Cell::VerticalDoubleCrossing => 7,
        }
    }

    pub fn region(self) -> Option<usize>
        ensures { result ≡ region_of self }
    {
        match self {
            Cell::Region(r) => Some(r as usize),
            Cell::VerticalOutputDoubleLine => None,
            Cell::VerticalAnnotationDoubleLine => None,
            Cell::HorizontalOutputDoubleLine => None,
            Cell::HorizontalAnnotationsDoubleLine => None,
            Cell::MainDoubleCrossing => None,
            Cell::HorizontalDoubleCrossing => None,
            Cell::VerticalDoubleCrossing => None,
        }
    }

    // Whether two cells are of one kind.
    pub fn is_same_kind(self, other: Cell) -> bool
        ensures { result ≡ same_kind self other }
    {
        self.kind() == other.kind()
    }

    // The number that a slice holds for a cell: no enum, since the slice of a plane is the caller's, in C too.
    pub fn number(self) -> u32
        requires { Small self }
        ensures { result ≡ cell_number self }
    {
        match self {
            Cell::Region(r) => 8 * r,
            Cell::VerticalOutputDoubleLine => 1,
            Cell::VerticalAnnotationDoubleLine => 2,
            Cell::HorizontalOutputDoubleLine => 3,
            Cell::HorizontalAnnotationsDoubleLine => 4,
            Cell::MainDoubleCrossing => 5,
            Cell::HorizontalDoubleCrossing => 6,
            Cell::VerticalDoubleCrossing => 7,
        }
    }

    // The cell in a turned plane.
    pub fn turned(self) -> Cell
        ensures { result ≡ turned_cell self }
    {
        match self {
            Cell::Region(r) => Cell::Region(r),
            Cell::VerticalOutputDoubleLine => Cell::HorizontalOutputDoubleLine,
            Cell::VerticalAnnotationDoubleLine => Cell::HorizontalAnnotationsDoubleLine,
            Cell::HorizontalOutputDoubleLine => Cell::VerticalOutputDoubleLine,
            Cell::HorizontalAnnotationsDoubleLine => Cell::VerticalAnnotationDoubleLine,
            Cell::MainDoubleCrossing => Cell::MainDoubleCrossing,
            Cell::HorizontalDoubleCrossing => Cell::VerticalDoubleCrossing,
            Cell::VerticalDoubleCrossing => Cell::HorizontalDoubleCrossing,
        }
    }
}

// The cell for which a slice holds a number, as `number` says.
impl From<u32> for Cell {
    ghost use Rattle.std.specs.Prelude.{◌≡◌};
    ghost use Rattle.model.specs.Cells.{cell_of, Small};

    ghost from_gives = { λ n c. (c ≡ cell_of n) × Small c };

    fn from(number: u32) -> Cell {
        let kind = number % 8;
        match kind {
            0 => Cell::Region(number / 8),
            1 => Cell::VerticalOutputDoubleLine,
            2 => Cell::VerticalAnnotationDoubleLine,
            3 => Cell::HorizontalOutputDoubleLine,
            4 => Cell::HorizontalAnnotationsDoubleLine,
            5 => Cell::MainDoubleCrossing,
            6 => Cell::HorizontalDoubleCrossing,
            _ => Cell::VerticalDoubleCrossing,
        }
    }
}
