// The end of a line, sought over plain bytes, and the check of a text line by line.
// Places are indices into the whole text, as in `utf8`.
ghost use Rattle.std.specs.Prelude.{true, ◌≡◌, ◌+◌, ◌≤◌, length, drop};
ghost use Rattle.characters.specs.utf8.Utf8.{check};
ghost use Rattle.characters.specs.white_space.Lines.{ValidTo};
ghost use Rattle.scan.specs.line_checks.LineEnds.{Plain, NextFrom};

// ASCII from 0x20 on.
fn is_plain(b: u8) -> bool
    ensures { result ≡ true → (0x20 ≤ b) × (b ≤ 0x7F) }
{
    (0x20 <= b) & (b <= 0x7F)
}

fn four_plain(s: &[u8], at: usize) -> bool
    requires { at + 4 ≤ length s.now }
    ensures { result ≡ true → Plain s.now at (at + 4) }
{
    let a = s[at];
    let b = s[at + 1];
    let c = s[at + 2];
    let d = s[at + 3];
    is_plain(a) & is_plain(b) & is_plain(c) & is_plain(d)
}

// Sixteen bytes are compared at once.
fn sixteen_plain(s: &[u8], at: usize) -> bool
    requires { at + 16 ≤ length s.now }
    ensures { result ≡ true → Plain s.now at (at + 16) }
{
    four_plain(s, at) & four_plain(s, at + 4) & four_plain(s, at + 8) & four_plain(s, at + 12)
}

// Past sixteens of bytes that are ASCII from 0x20 on.
fn skip_plain(s: &[u8], at: usize) -> usize
    requires { at ≤ length s.now }
    ensures { (at ≤ result) × (result ≤ length s.now) × Plain s.now at result }
{
    let mut p = at;
    // No `for`: each turn goes on by sixteen bytes, and where it ends is the answer.
    while 16 <= s.len() - p {
        if !sixteen_plain(s, p) {
            return p;
        }
        p += 16;
    }
    p
}

// Past n bytes at a place; past sixteens of plain ones too where these are more than one, since what is no ASCII broke these off.
fn skip_some(s: &[u8], at: usize, n: usize) -> usize
    requires { at + n ≤ length s.now }
    ensures { (at + n ≤ result) × (result ≤ length s.now) × Plain s.now (at + n) result }
{
    if n == 1 {
        return at + 1;
    }
    skip_plain(s, at + n)
}

// How far a text is read, and up to where its bytes are valid.
#[derive(Clone, Copy)]
pub struct ReadTo {
    pub at: usize,
    pub valid: usize,
}

// A line is read: the next one starts there.
pub(crate) fn line_end(s: &[u8], from: usize) -> ReadTo
    requires { from ≤ length s.now }
    ensures next { NextFrom s.now from result.at }
    ensures valid { ValidTo s.now from result.at result.valid }
{
    let mut p = skip_plain(s, from);
    // No `for`: each turn goes on by the bytes of a code point.
    while p < s.len() {
        let Some(n) = characters::utf8::passed(s, p) else {
            return ReadTo {
                at: s.len(),
                valid: p,
            };
        };
        if s[p] == 10 {
            return ReadTo {
                at: p + 1,
                valid: p + 1,
            };
        }
        p = skip_some(s, p, n);
    }
    ReadTo { at: p, valid: p }
}

// The check of the bytes from an index on, line by line.
pub fn validate_lines(s: &[u8], from: usize) -> Result<(), usize>
    ensures { result ≡ check 0 from (drop from s.now) }
{
    let mut at = from;
    let mut valid = from;
    // No `for`: each turn goes on by a line.
    while at < s.len() {
        let e = line_end(s, at);
        at = e.at;
        valid = e.valid;
    }
    characters::code_points::validate_from(s, valid)
}
