// The lines that the judge of the Rust prints, at the end of a vector of bytes: numbers, words, texts, counts, refusals.
// No `Display`, since `fmt` may fail and these cannot (DECISIONS 82), here and in the crates that print with these; a vector of fixed
// capacity, since nothing is allocated.
#![tactic(auto)]

pub mod listing;

ghost use Rattle.std.specs.Prelude.{◌∷◌, ◌+◌, ◌*◌, ◌≤◌, length};
ghost use Rattle.arrayvec.specs.ArrayVec.{array_vec_len};
ghost use Rattle.model.specs.Refusals.{numbers};
ghost use Rattle.print.specs.Decimal.{decimal, listed, Written};
ghost use Rattle.print.specs.Lines.{values_line, three_line, refused_line, count_line};

use arrayvec::ArrayVec;
use model::{Numbers, Refusal};

// A number in decimal.
pub fn put_number<const N: usize>(out: &mut ArrayVec<u8, N>, n: u64)
    requires { array_vec_len out.old + 20 ≤ N }
    ensures { Written out.old.items out.new.items (decimal n) 20 }
{
    // A slice and a count: the kit's `decimal` writes into a slice.
    let mut digits = [0u8; 20];
    let k = io::decimal(n, &mut digits);
    put_word(out, &digits[..k]);
}

// A blank and a number.
pub fn put_behind<const N: usize>(out: &mut ArrayVec<u8, N>, n: u64)
    requires { array_vec_len out.old + 21 ≤ N }
    ensures { Written out.old.items out.new.items (0x20 ∷ decimal n) 21 }
{
    out.push(0x20);
    put_number(out, n);
}

// A blank and a byte in decimal.
fn put_byte<const N: usize>(out: &mut ArrayVec<u8, N>, b: u8)
    requires { array_vec_len out.old + 21 ≤ N }
    ensures { Written out.old.items out.new.items (0x20 ∷ decimal b) 4 }
{
    put_behind(out, b as u64);
}

// A text as its count of bytes and the bytes.
fn put_listed<const N: usize>(out: &mut ArrayVec<u8, N>, text: &[u8])
    requires { array_vec_len out.old + 50 + 4 * length text.now ≤ N }
    ensures { Written out.old.items out.new.items (listed text.now) (20 + 4 * length text.now) }
{
    put_number(out, text.len() as u64);
    for &b in text {
        put_byte(out, b);
    }
}

// Bytes.
pub fn put_word<const N: usize>(out: &mut ArrayVec<u8, N>, word: &[u8])
    requires { array_vec_len out.old + length word.now ≤ N }
    ensures { Written out.old.items out.new.items word.now (length word.now) }
{
    out.try_extend_from_slice(word).unwrap();
}

// The allowed values and the default.
pub fn put_values<const N: usize>(out: &mut ArrayVec<u8, N>, allowed: &[u8], bare: &[u8])
    requires { array_vec_len out.old + 150 + 4 * length allowed.now + 4 * length bare.now ≤ N }
    ensures { Written out.old.items out.new.items (values_line allowed.now bare.now) (57 + 4 * length allowed.now + 4 * length bare.now) }
{
    put_word(out, b"values ");
    put_listed(out, allowed);
    put_word(out, b" default ");
    put_listed(out, bare);
    out.push(b'\n');
}

// Three numbers behind a word.
pub fn put_three<const N: usize>(out: &mut ArrayVec<u8, N>, word: &[u8], x: u64, y: u64, z: u64)
    requires { array_vec_len out.old + length word.now + 63 ≤ N }
    ensures { Written out.old.items out.new.items (three_line word.now x y z) (length word.now + 63) }
{
    put_word(out, word);
    put_number(out, x);
    put_behind(out, y);
    put_behind(out, z);
    out.push(b'\n');
}

// A refusal: N, A and B.
pub fn put_refusal<const N: usize>(out: &mut ArrayVec<u8, N>, r: Refusal)
    requires { array_vec_len out.old + 100 ≤ N }
    ensures { Written out.old.items out.new.items (refused_line (numbers r)) 100 }
{
    let x = Numbers::from(r);
    put_three(out, b"refused ", x.n, x.a, x.b);
}

// A count behind a word.
pub fn put_count<const N: usize>(out: &mut ArrayVec<u8, N>, word: &[u8], n: usize)
    requires { array_vec_len out.old + length word.now + 21 ≤ N }
    ensures { Written out.old.items out.new.items (count_line word.now n) (length word.now + 21) }
{
    put_word(out, word);
    put_number(out, n as u64);
    out.push(b'\n');
}
