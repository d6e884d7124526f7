// The search for a text in another by the periods of its fronts, after Galil and Seiferas 1983.
// Places are indices into the whole text, as in `utf8`.
ghost use Rattle.std.specs.Prelude.{◌&&◌, List, ◌≡◌, ℕ, ◌+◌, ◌*◌, ◌≤◌, ◌<◌, leb, ltb, length};
ghost use Rattle.arrayvec.specs.ArrayVec.{array_vec_len};
ghost use Rattle.values.specs.search.Periods.{Knows, Safe, Periods, FirstPlace};

use arrayvec::ArrayVec;

// Whether a period e that reaches `reach` tells of the first j bytes.
fn covers(e: usize, reach: usize, j: usize) -> bool
    ensures { result ≡ (leb (4 * e) j && leb j reach) }
{
    e <= j / 4 && j <= reach
}

// How far a text moves on after a mismatch, and how many of its bytes match there already.
#[derive(Clone, Copy)]
struct Shift {
    by: usize,
    keep: usize,
}

// A period of a text, and how far it reaches in it.
#[derive(Clone, Copy, Default)]
pub struct Stretch {
    pub period: usize,
    pub reach: usize,
}

// No text has more periods than these in a table.
pub const PERIODS: usize = 40;

// The shift after j matched bytes, by the periods in t.
fn shift_after(t: &[Stretch], j: usize) -> Shift
    ensures { (p : List ℕ) → Knows p t.now (length t.now) j → Safe p j result.by result.keep }
{
    for i in 0..t.len() {
        let e = t[i];
        if covers(e.period, e.reach, j) {
            return Shift {
                by: e.period,
                keep: j - e.period,
            };
        }
    }
    Shift {
        by: j / 4 + 1,
        keep: 0,
    }
}

// Whether a period e that reaches `reach` makes an entry behind those that reach `top`.
fn is_new(e: usize, reach: usize, top: usize) -> bool
    ensures { result ≡ (leb (4 * e) reach && ltb top reach) }
{
    e <= reach / 4 && top < reach
}

// The short periods of p, by a search for p in itself after Galil and Seiferas 1983. Each is more than three times the one before.
// They go into a vector of the caller's: one that is answered is moved, over its whole capacity.
pub(crate) fn periods_of(p: &[u8], t: &mut ArrayVec<Stretch, PERIODS>)
    requires { 0 < length p.now }
    ensures { Periods p.now t.new.items (array_vec_len t.new) }
{
    t.clear();
    let mut e: usize = 1;
    let mut reach: usize = 1;
    let mut top: usize = 0;
    // No `for`: a turn may go on, or try another period at the same place.
    while reach < p.len() {
        if p[reach] == p[reach - e] {
            reach += 1;
        } else if is_new(e, reach, top) {
            t.push(Stretch { period: e, reach });
            top = reach;
        } else {
            let s = shift_after(t.as_slice(), reach - e);
            e += s.by;
            reach = e + s.keep;
        }
    }
    if is_new(e, reach, top) {
        t.push(Stretch { period: e, reach });
    }
}

// A text to be searched for, and its short periods. (A period may be covered by two entries: the fact has more than one proof, hence `∥ ∥₁`.)
#[derive(Clone, Copy)]
pub struct Pattern<'t, 'p> {
    pub text: &'t [u8],
    pub periods: &'p [Stretch],
    pub ghost known: { ∥ Periods text.now periods.now (length periods.now) ∥₁ },
}

// The first place r from `from` on where the text p stands in s, or the end, in at most 4 (r - from) + |p| turns.
pub fn find(s: &[u8], from: usize, p: Pattern) -> usize
    requires { from ≤ length s.now }
    ensures { FirstPlace s.now from p.entry.text.now result }
{
    let text = p.text;
    let mut i = from;
    let mut j: usize = 0;
    // No `for`: a turn goes on by a byte or by a period.
    while text.len() <= s.len() - i {
        if j == text.len() {
            return i;
        }
        if s[i + j] == text[j] {
            j += 1;
        } else {
            let b = shift_after(p.periods, j);
            i += b.by;
            j = b.keep;
        }
    }
    s.len()
}
