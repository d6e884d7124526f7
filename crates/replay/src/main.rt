// Lines on standard input, each a kind, a count of bytes and the bytes. Prints what the port answers to each, as
// the judge of the Rust prints it: `split` is a text for the value split, `drawing` a sheet, `plane` a lent plane; `sheet` and
// `table` are a sheet and a lent plane whose record is asked for.
#![tactic(auto)]

ghost use Rattle.std.specs.Prelude.{◌≡◌, ◌+◌, ◌≤◌, length, take};
ghost use Rattle.arrayvec.specs.ArrayVec.{array_vec_len};
ghost use Rattle.model.specs.Limits.{text_bytes};
ghost use Rattle.answers.specs.lines.Room.{line_bytes};
ghost use Rattle.replay.specs.Kinds.{kind_of};
ghost use Rattle.replay.specs.Answers.{text_answer, answer_by, answer_of, AnsweredIn, Replayed, Stopped};

use answers::lent_answers::Asked;
use answers::lines::LINE_BYTES;
use arrayvec::ArrayVec;
use model::limits::TEXT_BYTES;
use std::io::{self, Read, Write};

// What a line asks for.
#[derive(Clone, Copy)]
pub enum Kind {
    Split,
    Drawing,
    Plane,
    Sheet,
    Table,
}

// The kind that a word tells, if it tells one.
fn kind_of(word: &[u8]) -> Option<Kind>
    ensures { result ≡ kind_of word.now }
{
    if word == b"split".as_slice() {
        Some(Kind::Split)
    } else if word == b"drawing".as_slice() {
        Some(Kind::Drawing)
    } else if word == b"plane".as_slice() {
        Some(Kind::Plane)
    } else if word == b"sheet".as_slice() {
        Some(Kind::Sheet)
    } else if word == b"table".as_slice() {
        Some(Kind::Table)
    } else {
        None
    }
}

// The answer to a text: `kind` is what the line asks for, and each has its own step here.
fn answer_text<const N: usize>(
    kind: Kind,
    text: &[u8],
    scratch: &mut [u8; TEXT_BYTES],
    out: &mut ArrayVec<u8, N>,
) -> Option<()>
    requires { (array_vec_len out.old + line_bytes ≤ N) × (length text.now ≤ text_bytes) }
    ensures { AnsweredIn result (text_answer kind text_bytes text.now) out.old.items out.new.items }
{
    match kind {
        Kind::Split => {
            answers::put_split_line(out, text, scratch);
            Some(())
        }
        Kind::Drawing => {
            answers::drawings::put_drawing(out, text);
            Some(())
        }
        Kind::Plane => {
            let l = answers::lent_lists::lists_in(text)?;
            answers::lent_answers::put_lent(out, Asked::Upright, l);
            Some(())
        }
        Kind::Sheet => {
            reports::put_sheet(out, text);
            Some(())
        }
        Kind::Table => {
            let l = answers::lent_lists::lists_in(text)?;
            answers::lent_answers::put_lent(out, Asked::Record, l);
            Some(())
        }
    }
}

// The answer to what stands behind a kind.
fn answer_by<const N: usize>(
    kind: Kind,
    rest: &[u8],
    text: &mut ArrayVec<u8, TEXT_BYTES>,
    scratch: &mut [u8; TEXT_BYTES],
    out: &mut ArrayVec<u8, N>,
) -> Option<()>
    requires { array_vec_len out.old + line_bytes ≤ N }
    ensures { AnsweredIn result (answer_by kind text_bytes rest.now) out.old.items out.new.items }
{
    answers::lines::read_text(rest, text)?;
    answer_text(kind, text.as_slice(), scratch, out)
}

// The answer to a line.
fn answer_line<const N: usize>(
    line: &[u8],
    text: &mut ArrayVec<u8, TEXT_BYTES>,
    scratch: &mut [u8; TEXT_BYTES],
    out: &mut ArrayVec<u8, N>,
) -> Option<()>
    requires { array_vec_len out.old + line_bytes ≤ N }
    ensures { AnsweredIn result (answer_of text_bytes line.now) out.old.items out.new.items }
{
    let end = answers::lines::find(line, 0, 0x20);
    if end == line.len() {
        return None;
    }
    let kind = kind_of(&line[0..end])?;
    answer_by(kind, &line[end + 1..], text, scratch, out)
}

// How far the lines of the input are answered, and whether no line was malformed.
// The flag is a fact beside the count, which holds either way.
#[derive(Clone, Copy)]
struct Progress {
    at: usize,
    is_good: bool,
}

// The answers to the whole lines of the input, up to one that is malformed, or as many as there is room for.
fn answer_lines<const N: usize>(
    input: &[u8],
    text: &mut ArrayVec<u8, TEXT_BYTES>,
    scratch: &mut [u8; TEXT_BYTES],
    out: &mut ArrayVec<u8, N>,
) -> Progress
    ensures replayed { Replayed text_bytes (take result.at input.now) out.new.items }
    ensures result_in_bounds { result.at ≤ length input.now }
    ensures stopped { Stopped result.is_good text_bytes input.now result.at N out.new.items }
{
    out.clear();
    let mut at: usize = 0;
    // No `for`: each turn goes on by a line.
    while at < input.len() {
        let end = answers::lines::find(input, at, 0x0A);
        if end == input.len() {
            return Progress { at, is_good: true };
        }
        if out.remaining_capacity() < LINE_BYTES {
            return Progress { at, is_good: true };
        }
        match answer_line(&input[at..end], text, scratch, out) {
            Some(()) => at = end + 1,
            None => return Progress { at, is_good: false },
        }
    }
    Progress { at, is_good: true }
}

// Reads once, behind the bytes that wait, and answers how many bytes came: none where the read fails.
// A slice and a count, here and below, and no vector: `read` fills a slice, and a vector lends only what it holds.
fn read_more<R: Read>(reader: &mut R, input: &mut [u8], count: usize) -> usize
    requires { count ≤ length input.old }
    ensures { count + result ≤ length input.new }
{
    reader.read(&mut input[count..]).unwrap_or(0)
}

// How many bytes of the input wait to be answered, and whether to go on.
// As above.
#[derive(Clone, Copy)]
struct Waiting {
    count: usize,
    is_open: bool,
}

// Reads once, writes the answers to the lines that are there, and keeps what is left of the input.
fn replay_some<R: Read, W: Write, const N: usize>(
    reader: &mut R,
    writer: &mut W,
    input: &mut [u8],
    text: &mut ArrayVec<u8, TEXT_BYTES>,
    scratch: &mut [u8; TEXT_BYTES],
    out: &mut ArrayVec<u8, N>,
    count: usize,
) -> Waiting
    requires { count ≤ length input.old }
    ensures { result.count ≤ length input.new }
{
    let got = read_more(reader, input, count);
    let end = count + got;
    let p = answer_lines(&input[0..end], text, scratch, out);
    let is_written = writer.write_all(out.as_slice()).is_ok();
    input.copy_within(p.at..end, 0);
    Waiting {
        count: end - p.at,
        is_open: goes_on(got, p.at, p.is_good, is_written),
    }
}

// Not at the end of the input, nor at a malformed line, nor where nothing can be written: facts of a turn, and no step to run.
fn goes_on(got: usize, at: usize, is_good: bool, is_written: bool) -> bool {
    if !is_good {
        return false;
    }
    if !is_written {
        return false;
    }
    0 < got || 0 < at
}

// What waits at the end is no line to answer. (A proved loop has to end, so its turns are counted.)
fn replay<R: Read, W: Write, const N: usize>(
    reader: &mut R,
    writer: &mut W,
    input: &mut [u8],
    text: &mut ArrayVec<u8, TEXT_BYTES>,
    scratch: &mut [u8; TEXT_BYTES],
    out: &mut ArrayVec<u8, N>,
) -> io::Result<()> {
    let mut count: usize = 0;
    for _ in 0..u64::MAX {
        let w = replay_some(reader, writer, input, text, scratch, out, count);
        if !w.is_open {
            return end_with(writer, w.count);
        }
        count = w.count;
    }
    Ok(())
}

// The message where bytes are left that are no line to answer.
fn end_with<W: Write>(writer: &mut W, count: usize) -> io::Result<()> {
    if 0 < count {
        writer.write_all(b"malformed line\n")?;
    }
    Ok(())
}

// The text of a line and the scratch slice of a split are made once and lent: each line writes only what it needs of them.
fn main(rt: HostRuntime) -> io::Result<()> {
    let mut input = [0u8; 262144];
    let mut text: ArrayVec<u8, TEXT_BYTES> = ArrayVec::new();
    let mut scratch = [0u8; TEXT_BYTES];
    let mut out: ArrayVec<u8, 655360> = ArrayVec::new();
    replay(
        &mut rt.stdin(),
        &mut rt.stdout(),
        &mut input,
        &mut text,
        &mut scratch,
        &mut out,
    )
}
