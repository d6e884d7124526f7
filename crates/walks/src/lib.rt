// Walks along the rows and columns of a layer.
#![tactic(auto)]

pub mod along;
pub mod cursors;
pub mod spot;

ghost use Rattle.std.specs.Prelude.{◌≡◌, List, ℕ, length};
ghost use Rattle.walks.specs.Walk.{walk_of, ahead, go_of};
ghost use Rattle.walks.specs.Spots.{from_spot};
ghost use Rattle.walks.specs.Sets.{has_bit, holds, Sought};
ghost use Rattle.walks.specs.Line.{back_of, step_of, line_of, Reach, next_of, NextFits};

use model::Refusal;
use spot::Spot;

// A value: a walk reads its characters, its step and whether it goes backwards by it once, before the loop; each turn
// asks the last alone (`next`), since a step is a number without a sign. A closure for each step would be no plainer.
#[derive(Clone, Copy)]
pub enum Direction {
    Right,
    Down,
    Left,
    Up,
}

// A set of box characters: bit k of `light` is for the character 0x2500 + k, bit k of `double` for 0x2540 + k.
#[derive(Clone, Copy)]
pub struct Set {
    pub light: u64,
    pub double: u64,
}

// What a walk searches for, with the first of it by itself, and what it goes over, with the plain character of the line by itself.
#[derive(Clone, Copy)]
pub struct Characters {
    pub searched: Set,
    pub wanted: u32,
    pub allowed: Set,
    pub line: u32,
}

// The place one step on.
fn next(back: bool, p: usize, step: usize) -> usize
    requires { NextFits back p step }
    ensures { result ≡ next_of back p step }
{
    if back { p - step } else { p + step }
}

// The first characters that the two numbers of a set can have.
const FIRST_LIGHT: u32 = 0x2500;

const FIRST_DOUBLE: u32 = 0x2540;

// Whether a number has a character, of the 64 from `first` on.
fn has_bit(bits: u64, first: u32, code: u32) -> bool
    ensures { result ≡ has_bit bits first code }
{
    if code < first {
        return false;
    }
    let k = code - first;
    if 64 <= k {
        return false;
    }
    (bits >> k) % 2 == 1
}

// Whether a set has a character.
fn holds(set: Set, code: u32) -> bool
    ensures { result ≡ holds set code }
{
    if code < FIRST_DOUBLE {
        return has_bit(set.light, FIRST_LIGHT, code);
    }
    has_bit(set.double, FIRST_DOUBLE, code)
}

// Over `count` characters of a layer from `at`, which itself is not looked at. The last character that passed is kept, at first that of the
// line, and passed again with no test: a side is a long run of one.
fn walk_line(
    codes: &[u32],
    back: bool,
    at: usize,
    step: usize,
    count: usize,
    c: Characters,
) -> Result<usize, Refusal>
    requires { Reach back at step count (length codes.now) }
    ensures { (s a : List ℕ) → Sought c s a → result ≡ walk_of (line_of codes.now back at step) s a count }
{
    let mut p = at;
    let mut kept = c.line;
    for k in 0..count {
        p = next(back, p, step);
        let code = codes[p];
        if code != kept {
            if holds(c.searched, code) {
                return Ok(k + 1);
            }
            if !holds(c.allowed, code) {
                return Err(Refusal::CharacterNotAllowed(code));
            }
            kept = code;
        }
    }
    Err(Refusal::CharactersNotFound(c.wanted))
}

// Whether a direction goes backwards through a layer.
fn is_back(d: Direction) -> bool
    ensures { result ≡ back_of d }
{
    match d {
        Direction::Right => false,
        Direction::Down => false,
        Direction::Left => true,
        Direction::Up => true,
    }
}

// The places between two characters of a direction's line.
fn step_of(d: Direction, w: usize) -> usize
    ensures { result ≡ step_of d w }
{
    match d {
        Direction::Right => 1,
        Direction::Down => w,
        Direction::Left => 1,
        Direction::Up => w,
    }
}

// How many characters lie ahead.
fn ahead(d: Direction, spot: Spot) -> usize
    ensures { result ≡ ahead d spot.entry.layer.width spot.entry.layer.height spot.entry.at.x spot.entry.at.y }
{
    match d {
        Direction::Right => spot.layer.width - 1 - spot.at.x,
        Direction::Down => spot.layer.height - 1 - spot.at.y,
        Direction::Left => spot.at.x,
        Direction::Up => spot.at.y,
    }
}

// Walks from a place of a layer, over allowed characters to a searched one.
pub(crate) fn go(d: Direction, spot: Spot, c: Characters) -> Result<usize, Refusal>
    ensures { (s a : List ℕ) → Sought c s a → result ≡ from_spot (λ p w h x y. go_of d p w h x y s a) spot.entry }
{
    let w = spot.layer.width;
    walk_line(
        spot.layer.codes,
        is_back(d),
        spot.at.y * w + spot.at.x,
        step_of(d, w),
        ahead(d, spot),
        c,
    )
}
