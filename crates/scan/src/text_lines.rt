// The lines of a text in UTF-8, read by their bytes: a line of a sheet with its length, and the head of any other.
// Places are indices into the whole text, as in `utf8`.
ghost use Rattle.std.specs.Prelude.{true, ◌≡◌, ◌+◌, ◌<◌, ◌≤◌, length, drop};
ghost use Rattle.characters.specs.utf8.Utf8.{decode, codes, SameCheck};
ghost use Rattle.characters.specs.utf8.Passed.{code_of};
ghost use Rattle.characters.specs.white_space.Lines.{LineAt, HeadAt, ValidTo};
ghost use Rattle.scan.specs.text_lines.LineScan.{lead, RestAt, seen_of, WordAt, head_of};
ghost use Rattle.scan.specs.declared.text_lines.Seen.TheVariants.{Text};

use crate::line_checks::ReadTo;
use characters::utf8::Decoded;

// Past the white space in front of a line, up to what is none or is ill-formed.
fn skip_white(s: &[u8], at: usize) -> usize
    requires { at ≤ length s.now }
    ensures { (at ≤ result) × (result ≤ length s.now) × (codes (drop result s.now) ≡ lead (codes (drop at s.now))) × SameCheck s.now at result }
{
    let mut p = at;
    // No `for`: each turn goes on by the bytes of a code point.
    while p < s.len() {
        let d = characters::utf8::next(s, p);
        match d {
            Decoded::Char(c, n) => {
                if c == 10 {
                    return p;
                }
                if characters::white_space::white_space(c) {
                    p += n;
                } else {
                    return p;
                }
            }
            Decoded::IllFormed => {
                return p;
            }
            Decoded::End => {
                return p;
            }
        }
    }
    p
}

// What a line has at a place: a character of its text or white space, each with its number of bytes; a line feed; or nothing that is well-formed.
#[derive(Clone, Copy)]
enum Seen {
    Text(usize),
    White(usize),
    LineFeed,
    Nothing,
}

fn seen_of(d: Decoded) -> Seen
    ensures { result ≡ seen_of d }
{
    match d {
        Decoded::Char(c, n) => {
            if !characters::white_space::white_space(c) {
                return Seen::Text(n);
            }
            if c == 10 {
                return Seen::LineFeed;
            }
            Seen::White(n)
        }
        Decoded::IllFormed => Seen::Nothing,
        Decoded::End => Seen::Nothing,
    }
}

// Four bytes from a place on as a number, the first as the lowest. They are read at once.
fn word(s: &[u8], at: usize) -> u32
    requires { at + 4 ≤ length s.now }
    ensures { WordAt s.now at result }
{
    u32::from_le_bytes([s[at], s[at + 1], s[at + 2], s[at + 3]])
}

// Whether three bytes at a place are E2, 94 or 95, 80 to BF, as those of all box characters are. Not told of the last three.
fn is_box(s: &[u8], at: usize) -> bool
    requires { at < length s.now }
    ensures { result ≡ true → seen_of (decode (drop at s.now)) ≡ Text 3 }
{
    if s.len() - at < 4 {
        return false;
    }
    word(s, at) & 0xC0_FEFF == 0x80_94E2
}

// The same behind a first byte that is no ASCII: box characters first, which most are.
fn seen_wide(s: &[u8], at: usize) -> Seen
    requires { at < length s.now }
    ensures { result ≡ seen_of (decode (drop at s.now)) }
{
    if is_box(s, at) {
        return Seen::Text(3);
    }
    seen_of(characters::utf8::next(s, at))
}

fn seen_at(s: &[u8], at: usize) -> Seen
    requires { at < length s.now }
    ensures { result ≡ seen_of (decode (drop at s.now)) }
{
    let a = s[at];
    if 0x7F < a {
        return seen_wide(s, at);
    }
    if 0x20 < a {
        return Seen::Text(1);
    }
    if a == 0x20 {
        return Seen::White(1);
    }
    seen_of(Decoded::Char(a as u32, 1))
}

// The rest of a line: how many code points are left without the white space at its end, the last of them, and where the line ends.
#[derive(Clone, Copy)]
pub struct Rest {
    pub count: usize,
    pub last: u32,
    pub end: ReadTo,
}

// 0 and no Option: it is compared with a box character alone, and 0 is none.
fn code_of(d: Decoded) -> u32
    ensures { result ≡ code_of d }
{
    match d {
        Decoded::Char(c, _) => c,
        Decoded::IllFormed => 0,
        Decoded::End => 0,
    }
}

// The last code point is told by its place; where there is none, by the end of the bytes.
fn rest_of(s: &[u8], count: usize, last: usize, at: usize, valid: usize) -> Rest
    ensures { result ≡ record { count = count; last = code_of (decode (drop last s.now)); end = record { at = at; valid = valid } } }
{
    Rest {
        count,
        last: code_of(characters::utf8::next(s, last)),
        end: ReadTo { at, valid },
    }
}

// An ill-formed sequence ends the text.
fn line_rest(s: &[u8], from: usize) -> Rest
    requires { from ≤ length s.now }
    ensures rest { RestAt s.now from result.count result.last result.end.at }
    ensures valid { ValidTo s.now from result.end.at result.end.valid }
{
    let mut p = from;
    let mut k: usize = 0;
    let mut count: usize = 0;
    let mut last = s.len();
    // No `for`: each turn goes on by the bytes of a code point.
    while p < s.len() {
        let e = seen_at(s, p);
        match e {
            Seen::Text(n) => {
                last = p;
                p += n;
                k += 1;
                count = k;
            }
            Seen::White(n) => {
                p += n;
                k += 1;
            }
            Seen::LineFeed => {
                return rest_of(s, count, last, p + 1, p + 1);
            }
            Seen::Nothing => {
                return rest_of(s, count, last, s.len(), p);
            }
        }
    }
    rest_of(s, count, last, p, p)
}

// A line: where its trimmed text starts, and its rest from there.
#[derive(Clone, Copy)]
pub struct Line {
    pub from: usize,
    pub rest: Rest,
}

pub(crate) fn line_at(s: &[u8], at: usize) -> Line
    requires { at ≤ length s.now }
    ensures line { LineAt s.now at result.from result.rest.count result.rest.last result.rest.end.at }
    ensures valid { ValidTo s.now at result.rest.end.at result.rest.end.valid }
{
    let from = skip_white(s, at);
    let rest = line_rest(s, from);
    Line { from, rest }
}

// The code point that a text begins with, 0 where a line feed stands or nothing.
// 0 and no Option, as in `code_of`.
fn first_of(d: Decoded) -> u32
    ensures { result ≡ head_of d }
{
    match d {
        Decoded::Char(c, _) => {
            if c == 10 {
                return 0;
            }
            c
        }
        Decoded::IllFormed => 0,
        Decoded::End => 0,
    }
}

// The head of a line: the first code point of its trimmed text, 0 where it has none, and where the line ends.
#[derive(Clone, Copy)]
pub struct Head {
    pub first: u32,
    pub end: ReadTo,
}

// What tells whether a sheet begins; of the rest only its end is sought.
pub(crate) fn line_head(s: &[u8], at: usize) -> Head
    requires { at ≤ length s.now }
    ensures head { HeadAt s.now at result.first result.end.at }
    ensures valid { ValidTo s.now at result.end.at result.end.valid }
{
    let from = skip_white(s, at);
    let first = first_of(characters::utf8::next(s, from));
    let end = crate::line_checks::line_end(s, from);
    Head { first, end }
}
