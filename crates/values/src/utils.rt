// The value split: the allowed values and the default of an output clause.
// A slice with a place or a count: it is lent by the caller, in C too, as `record` says.
ghost use Rattle.std.specs.Prelude.{◌≡◌, length, take};
ghost use Rattle.values.specs.emphasis.Emphasis.{choice_of};
ghost use Rattle.values.specs.utils.Split.{split_by, split_of, scratch_by, scratch_of, answered, Places, allowed_in};

use crate::Rewritten;
use crate::search::{PERIODS, Pattern, Stretch};
use arrayvec::ArrayVec;
use model::Refusal;

// The value split of a text, with the allowed values in scratch where they are rewritten. None is rewritten where the text itself is the
// allowed values; there is no default then. (By `measure_values` and `put_values` of `values`, which it repeats, the part in emphasis and its
// periods are found twice: tried, and up to 1.7 times the instructions of a split.)
fn split_text(text: &[u8], scratch: &mut [u8]) -> Result<Option<Rewritten>, Refusal>
    ensures answer { answered result text.now scratch.new ≡ split_by (choice_of text.now) text.now (length scratch.old) }
    ensures places { Places result text.now scratch.new }
    ensures scratch { scratch.new ≡ scratch_by (choice_of text.now) text.now scratch.old }
{
    let Some(f) = crate::emphasis::first_marked(text) else {
        return Ok(None);
    };
    let part = &text[f.from..f.to];
    let bare = &text[f.a..f.b];
    let mut periods: ArrayVec<Stretch, PERIODS> = ArrayVec::new();
    crate::search::periods_of(part, &mut periods);
    let pattern = Pattern {
        text: part,
        periods: periods.as_slice(),
    };
    let bytes = crate::rewriting::measure(text, pattern, bare);
    if scratch.len() < bytes {
        return Err(Refusal::OutputSliceShort(bytes));
    }
    crate::rewriting::rewrite(text, pattern, bare, scratch, 0);
    Ok(Some(Rewritten {
        bytes,
        from: f.a,
        to: f.b,
    }))
}

// The same, of a text that is first checked to be UTF-8.
pub fn split_values(text: &[u8], scratch: &mut [u8]) -> Result<Option<Rewritten>, Refusal>
    ensures answer { answered result text.now scratch.new ≡ split_of text.now (length scratch.old) }
    ensures places { Places result text.now scratch.new }
    ensures scratch { scratch.new ≡ scratch_of text.now scratch.old }
{
    characters::code_points::validate(text).map_err(Refusal::InvalidUtf8)?;
    split_text(text, scratch)
}

// The allowed values after the split: the text, or a part of scratch.
pub fn allowed_values<'a>(
    text: &'a [u8],
    scratch: &'a [u8],
    s: Result<Option<Rewritten>, Refusal>,
) -> &'a [u8]
    ensures { result.now ≡ allowed_in s text.now scratch.now }
{
    match s {
        Ok(Some(r)) => front(scratch, r.bytes),
        Ok(None) => text,
        Err(_) => text,
    }
}

// The first n bytes, or all where there are fewer.
fn front(s: &[u8], n: usize) -> &[u8]
    ensures { result.now ≡ take n s.now }
{
    s.get(..n).unwrap_or(s)
}
