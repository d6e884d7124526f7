// A line of input: the words of a line, and the text that stands behind a line's kind.
ghost use Rattle.std.specs.Prelude.{◌≡◌, ◌≤◌, length};
ghost use Rattle.plane.specs.numerals.RuleNumbers.{number_of};
ghost use Rattle.answers.specs.lines.Texts.{FirstAt, at_most, bytes_in, text_of, read_as};

use arrayvec::ArrayVec;

// Room for the answer to a line.
pub const LINE_BYTES: usize = 550000;

// The index of the first m from `at` on, or the end.
// A place and no part of the text: it tells a place of the whole, where `replay` goes on in its input.
pub fn find(s: &[u8], at: usize, m: u8) -> usize
    requires { at ≤ length s.now }
    ensures { FirstAt s.now at m result }
{
    for i in at..s.len() {
        if s[i] == m {
            return i;
        }
    }
    s.len()
}

// The number that a word is, if it is not too large.
fn small_number(word: &[u8], most: usize) -> Option<usize>
    ensures { result ≡ at_most most (number_of word.now) }
{
    let n = plane::numerals::rule_number(word)?;
    if n <= most as u64 {
        return Some(n as usize);
    }
    None
}

// So many bytes, each behind a blank, in place of what the vector holds.
fn read_bytes<const N: usize>(s: &[u8], count: usize, text: &mut ArrayVec<u8, N>) -> Option<()>
    requires { count ≤ N }
    ensures { bytes_in count s.now ≡ read_as result text.new.items }
{
    text.clear();
    let mut at = 0;
    for _ in 0..count {
        if s.len() <= at {
            return None;
        }
        let start = at + 1;
        let end = find(s, start, 0x20);
        let b = small_number(&s[start..end], 255)?;
        text.push(b as u8);
        at = end;
    }
    if at < s.len() {
        return None;
    }
    Some(())
}

// The text behind a kind, into a vector that serves line after line: one that is answered would be made and moved anew for each,
// over its whole capacity.
pub fn read_text<const N: usize>(line: &[u8], text: &mut ArrayVec<u8, N>) -> Option<()>
    ensures { text_of N line.now ≡ read_as result text.new.items }
{
    let end = find(line, 0, 0x20);
    let count = small_number(&line[0..end], N)?;
    read_bytes(&line[end..], count, text)
}
