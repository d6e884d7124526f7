// Unicode: White_Space and trimming.
// Places are indices into the whole text, as in `utf8`.
ghost use Rattle.std.specs.Prelude.{◌≡◌, ◌+◌, ◌-◌, ◌<◌, ◌≤◌, ◌^◌, length, drop, take};
ghost use Rattle.characters.specs.white_space.White.{white};
ghost use Rattle.characters.specs.white_space.Trim.{trim_start, trim_end, trim, trim_start_utf8, trim_utf8, PartIn};
ghost use Rattle.characters.specs.white_space.Leading.{Led};

use crate::utf8::Decoded;

// Whether a code point is White_Space, by the list of them.
fn listed(c: u32) -> bool
    ensures { result ≡ white c }
{
    match c {
        0x09..=0x0D
        | 0x20
        | 0x85
        | 0xA0
        | 0x1680
        | 0x2000..=0x200A
        | 0x2028..=0x2029
        | 0x202F
        | 0x205F
        | 0x3000 => true,
        _ => false,
    }
}

// Whether a code point is White_Space. Above 0x205F only 0x3000 is, and between 0x20 and 0x85 none.
pub fn white_space(c: u32) -> bool
    ensures { result ≡ white c }
{
    if 0x205F < c {
        return c == 0x3000;
    }
    if 0x20 < c {
        if c < 0x85 {
            return false;
        }
        return listed(c);
    }
    if c == 0x20 {
        return true;
    }
    if c < 0x09 {
        return false;
    }
    c <= 0x0D
}

// The same of a code point in a cell: most are blanks.
fn white_code(c: u32) -> bool
    ensures { result ≡ white c }
{
    if c == 0x20 {
        return true;
    }
    white_space(c)
}

// A part of a slice.
#[derive(Clone, Copy)]
pub struct Part {
    pub from: usize,
    pub to: usize,
}

impl Part {
    // The same part where the slice stands behind so many others.
    fn behind(self, before: usize) -> Part
        requires { (before + self.from < 2 ^ 64) × (before + self.to < 2 ^ 64) }
        ensures { (result.from ≡ before + self.from) × (result.to ≡ before + self.to) }
    {
        Part {
            from: before + self.from,
            to: before + self.to,
        }
    }
}

// Where the code points without the white space in front start.
fn codes_start(s: &[u32]) -> usize
    ensures { (result ≤ length s.now) × (drop result s.now ≡ trim_start s.now) }
{
    for i in 0..s.len() {
        if !white_code(s[i]) {
            return i;
        }
    }
    s.len()
}

// Where the code points from `from` on end, without the white space behind them.
fn codes_end(s: &[u32], from: usize) -> usize
    requires { from ≤ length s.now }
    ensures { PartIn s.now from (length s.now) (drop from s.now) (trim_end (drop from s.now)) from result }
{
    for i in (from..s.len()).rev() {
        if !white_code(s[i]) {
            return i + 1;
        }
    }
    from
}

// The part of some code points that is left without the white space at the ends.
fn trim_codes(s: &[u32]) -> Part
    ensures { PartIn s.now 0 (length s.now) (trim_start s.now) (trim s.now) result.from result.to }
{
    let from = codes_start(s);
    let to = codes_end(s, from);
    Part { from, to }
}

// The same of the code points from a up to e.
pub fn trim_codes_part(s: &[u32], a: usize, e: usize) -> Part
    requires { (a ≤ e) × (e ≤ length s.now) }
    ensures { PartIn s.now a e (trim_start (take (e - a) (drop a s.now))) (trim (take (e - a) (drop a s.now))) result.from result.to }
{
    trim_codes(&s[a..e]).behind(a)
}

// Past the white space in front of a text in UTF-8, up to what is none or is ill-formed.
fn utf8_start(s: &[u8]) -> usize
    ensures { Led s.now result }
{
    let mut p = 0;
    // No `for`: each turn goes on by the bytes of a code point.
    while p < s.len() {
        let d = crate::utf8::next(s, p);
        match d {
            Decoded::Char(c, n) => {
                if white_space(c) {
                    p += n;
                } else {
                    return p;
                }
            }
            Decoded::IllFormed => {
                return p;
            }
            Decoded::End => {
                return p;
            }
        }
    }
    p
}

// The part of a text in UTF-8 that is left without the white space at its ends; the whole of it where it is ill-formed.
fn trim_utf8(s: &[u8]) -> Part
    ensures { PartIn s.now 0 (length s.now) (trim_start_utf8 s.now) (trim_utf8 s.now) result.from result.to }
{
    let from = utf8_start(s);
    let mut p = from;
    let mut to = from;
    // No `for`: each turn goes on by the bytes of a code point.
    while p < s.len() {
        let d = crate::utf8::next(s, p);
        match d {
            Decoded::Char(c, n) => {
                p += n;
                if white_space(c) {} else {
                    to = p;
                }
            }
            Decoded::IllFormed => {
                return Part {
                    from: 0,
                    to: s.len(),
                };
            }
            Decoded::End => {
                return Part {
                    from: 0,
                    to: s.len(),
                };
            }
        }
    }
    Part { from, to }
}

// The same of the bytes from a up to e.
pub fn trim_utf8_part(s: &[u8], a: usize, e: usize) -> Part
    requires { (a ≤ e) × (e ≤ length s.now) }
    ensures { PartIn s.now a e (trim_start_utf8 (take (e - a) (drop a s.now))) (trim_utf8 (take (e - a) (drop a s.now))) result.from result.to }
{
    trim_utf8(&s[a..e]).behind(a)
}
