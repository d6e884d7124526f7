// The parts of a list between commas, and the first that stands in emphasis: its marked default.
// Places are indices into the whole text, as in `utf8`.
ghost use Rattle.std.specs.Prelude.{◌&&◌, ◌≡◌, ◌-◌, ◌≤◌, ◌<◌, length, take, drop};
ghost use Rattle.values.specs.emphasis.Emphasis.{starts_with, ends_with, strip_start, strip_end, strip, marks, emphasised, marked};
ghost use Rattle.values.specs.emphasis.Found.{PartEnd, Bare, MarkOf, FoundIn};

use characters::white_space::Part;

// p without all repetitions of e in front.
fn strip_start<'a>(p: &'a [u8], e: &[u8]) -> &'a [u8]
    requires { 0 < length e.now }
    ensures { result.now ≡ strip_start 0 e.now p.now }
{
    let mut left = p;
    while let Some(rest) = left.strip_prefix(e) {
        left = rest;
    }
    left
}

// p without all repetitions of e at the end. It differs from `strip_start` in the library's method alone; handed on, that would be a
// closure over e, whose step no contract here can name.
fn strip_end<'a>(p: &'a [u8], e: &[u8]) -> &'a [u8]
    requires { 0 < length e.now }
    ensures { result.now ≡ strip_end (length p.now) e.now p.now }
{
    let mut left = p;
    while let Some(front) = left.strip_suffix(e) {
        left = front;
    }
    left
}

// Whether p begins and ends with e.
fn is_marked(p: &[u8], e: &[u8]) -> bool
    ensures { result ≡ (starts_with e.now p.now && ends_with e.now p.now) }
{
    p.starts_with(e) && p.ends_with(e)
}

// Where in p its text without the mark e stands.
fn bare(p: &[u8], e: &[u8]) -> Part
    requires { 0 < length e.now }
    ensures { Bare p.now (marked (length p.now - length (strip_start 0 e.now p.now)) p.now (strip e.now p.now)) result }
{
    let left = strip_start(p, e);
    let from = p.len() - left.len();
    let to = from + strip_end(left, e).len();
    Part { from, to }
}

// The part p without the first mark that it begins and ends with.
fn mark_of(p: &[u8]) -> Option<Part>
    ensures { MarkOf p.now (emphasised marks p.now) result }
{
    if is_marked(p, b"**") {
        return Some(bare(p, b"**"));
    }
    if is_marked(p, b"__") {
        return Some(bare(p, b"__"));
    }
    if is_marked(p, b"*") {
        return Some(bare(p, b"*"));
    }
    if is_marked(p, b"_") {
        return Some(bare(p, b"_"));
    }
    if is_marked(p, b"`") {
        return Some(bare(p, b"`"));
    }
    None
}

// The index of the first comma from `at` on, or the end.
fn part_end(s: &[u8], at: usize) -> usize
    requires { at ≤ length s.now }
    ensures { PartEnd s.now at result }
{
    let behind = &s[at..];
    at + behind
        .iter()
        .position(|c| *c == b',')
        .unwrap_or(behind.len())
}

// The first part in emphasis: the part, and its bare text from a up to b.
#[derive(Clone, Copy)]
pub struct Found {
    pub from: usize,
    pub to: usize,
    pub a: usize,
    pub b: usize,
}

pub(crate) fn first_marked(s: &[u8]) -> Option<Found>
    ensures { FoundIn s.now result }
{
    let mut at: usize = 0;
    // No `for`: each turn goes on behind the next comma.
    while at <= s.len() {
        let end = part_end(s, at);
        let t = characters::white_space::trim_utf8_part(s, at, end);
        let from = t.from;
        let to = t.to;
        if let Some(m) = mark_of(&s[from..to]) {
            return Some(Found {
                from,
                to,
                a: from + m.from,
                b: from + m.to,
            });
        }
        if end == s.len() {
            return None;
        }
        at = end + 1;
    }
    None
}
