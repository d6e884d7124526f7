// UTF-8 read: what stands at a place of the bytes.
// A place in a text is an index into all of it, here and in the crates above: a refusal and the end of a drawing are told so, and a part of the
// text would not know where it stands.
ghost use Rattle.std.specs.Prelude.{[], ◌∷◌, ◌≡◌, ◌+◌, ◌-◌, ◌<◌, ◌≤◌, length, drop, replicate};
ghost use Rattle.characters.specs.utf8.Utf8.{more, decode, tail, ◌–◌};
ghost use Rattle.characters.specs.utf8.Passed.{code_in, bytes_in, CodeFits};

// What stands at a place: a code point with its number of bytes, an ill-formed sequence, or nothing.
#[derive(Clone, Copy)]
pub enum Decoded {
    Char(u32, usize),
    IllFormed,
    End,
}

// Bytes that follow: one in lo to hi, and `left` more. Inlined, so that its turns are compiled with their number; a call of itself
// would not be.
#[inline(always)]
fn more(s: &[u8], at: usize, lo: u8, hi: u8, code: u32, n: usize, left: usize) -> Decoded
    requires { (128 ≤ lo) × (hi ≤ 191) × CodeFits code left × (left ≤ 2) × (n + left ≤ 3) }
    ensures { result ≡ more ((lo – hi) ∷ replicate left tail) code n (drop at s.now) }
{
    if s.len() <= at {
        return Decoded::IllFormed;
    }
    let b = s[at];
    if b < lo {
        return Decoded::IllFormed;
    }
    if hi < b {
        return Decoded::IllFormed;
    }
    let mut read = code * 64 + ((b - 128) as u32);
    let p = at + 1;
    for k in 0..left {
        if s.len() <= p + k {
            return Decoded::IllFormed;
        }
        let c = s[p + k];
        if c < 0x80 {
            return Decoded::IllFormed;
        }
        if 0xBF < c {
            return Decoded::IllFormed;
        }
        read = read * 64 + ((c - 128) as u32);
    }
    Decoded::Char(read, n + 1 + left)
}

// What stands at a place of the bytes, by all rows of the table.
fn from_table(s: &[u8], at: usize) -> Decoded
    ensures { result ≡ decode (drop at s.now) }
{
    if s.len() <= at {
        return Decoded::End;
    }
    let a = s[at];
    if a <= 0x7F {
        return Decoded::Char(a as u32, 1);
    }
    if a <= 0xC1 {
        return Decoded::IllFormed;
    }
    let b = at + 1;
    if a <= 0xDF {
        return more(s, b, 0x80, 0xBF, (a - 0xC0) as u32, 1, 0);
    }
    if a <= 0xE0 {
        return more(s, b, 0xA0, 0xBF, (a - 0xE0) as u32, 1, 1);
    }
    if a <= 0xEC {
        return more(s, b, 0x80, 0xBF, (a - 0xE0) as u32, 1, 1);
    }
    if a <= 0xED {
        return more(s, b, 0x80, 0x9F, (a - 0xE0) as u32, 1, 1);
    }
    if a <= 0xEF {
        return more(s, b, 0x80, 0xBF, (a - 0xE0) as u32, 1, 1);
    }
    if a <= 0xF0 {
        return more(s, b, 0x90, 0xBF, (a - 0xF0) as u32, 1, 2);
    }
    if a <= 0xF3 {
        return more(s, b, 0x80, 0xBF, (a - 0xF0) as u32, 1, 2);
    }
    if a <= 0xF4 {
        return more(s, b, 0x80, 0x8F, (a - 0xF0) as u32, 1, 2);
    }
    Decoded::IllFormed
}

// The two bytes behind a first one of E1 to EC at a place.
fn two_more(s: &[u8], at: usize, a: u8) -> Decoded
    requires { (at + 2 < length s.now) × (0xE0 ≤ a) }
    ensures { result ≡ more (tail ∷ tail ∷ []) (a - 0xE0) 1 (drop (at + 1) s.now) }
{
    let p = at + 1;
    let b = s[p];
    if b < 0x80 {
        return Decoded::IllFormed;
    }
    if 0xBF < b {
        return Decoded::IllFormed;
    }
    let c = s[p + 1];
    if c < 0x80 {
        return Decoded::IllFormed;
    }
    if 0xBF < c {
        return Decoded::IllFormed;
    }
    Decoded::Char(
        (a as u32) * 4096 + (b as u32) * 64 + (c as u32) - 0xE2080,
        3,
    )
}

// The code point that stands at a place, if one does. Stays out of line: `next` and `passed` are small without it.
fn rare(s: &[u8], at: usize) -> Option<u32>
    ensures { result ≡ code_in (decode (drop at s.now)) }
{
    match from_table(s, at) {
        Decoded::Char(c, _) => Some(c),
        Decoded::IllFormed => None,
        Decoded::End => None,
    }
}

// What stands at a place of the bytes: ASCII and three bytes that start with E1 to EC first, which nearly all are.
pub fn next(s: &[u8], at: usize) -> Decoded
    ensures { result ≡ decode (drop at s.now) }
{
    if s.len() <= at {
        return Decoded::End;
    }
    let a = s[at];
    if a <= 0x7F {
        return Decoded::Char(a as u32, 1);
    }
    if 0xE0 < a {
        if a <= 0xEC {
            if 2 < s.len() - at {
                return two_more(s, at, a);
            }
        }
    }
    let Some(c) = rare(s, at) else {
        return Decoded::IllFormed;
    };
    if c <= 0x7FF {
        return Decoded::Char(c, 2);
    }
    if c <= 0xFFFF {
        return Decoded::Char(c, 3);
    }
    Decoded::Char(c, 4)
}

// How many bytes a code point has, where there is one.
fn bytes_in(d: Decoded) -> Option<usize>
    ensures { result ≡ bytes_in d }
{
    match d {
        Decoded::Char(_, n) => Some(n),
        Decoded::IllFormed => None,
        Decoded::End => None,
    }
}

// How many bytes the code point at a place has, if one stands there.
pub fn passed(s: &[u8], at: usize) -> Option<usize>
    requires { at < length s.now }
    ensures { result ≡ bytes_in (decode (drop at s.now)) }
{
    let a = s[at];
    if a <= 0x7F {
        return Some(1);
    }
    if 0xE0 < a {
        if a <= 0xEC {
            if 2 < s.len() - at {
                return bytes_in(two_more(s, at, a));
            }
        }
    }
    let c = rare(s, at)?;
    if c <= 0x7FF {
        return Some(2);
    }
    if c <= 0xFFFF {
        return Some(3);
    }
    Some(4)
}
