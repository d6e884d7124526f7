// The values of a text: its allowed values and its default, measured and written.
// A slice with a place or a count: it is lent by the caller, in C too, as `record` says.
#![tactic(auto)]

pub mod emphasis;
pub mod rewriting;
pub mod search;
pub mod utils;

ghost use Rattle.std.specs.Prelude.{◌≡◌, ◌+◌, ◌≤◌, length};
ghost use Rattle.lists.specs.Put.{put};
ghost use Rattle.values.specs.Values.{values_of, MeasuredOf};

use crate::search::{PERIODS, Pattern, Stretch};
use arrayvec::ArrayVec;

// Rewritten values: so many bytes are the allowed values, and the default stands in the text from one place up to another.
#[derive(Clone, Copy)]
pub struct Rewritten {
    pub bytes: usize,
    pub from: usize,
    pub to: usize,
}

// The value split of a text, measured and not written; none where its values are the text itself.
pub fn measure_values(text: &[u8]) -> Option<Rewritten>
    ensures { MeasuredOf result text.now }
{
    let f = crate::emphasis::first_marked(text)?;
    let part = &text[f.from..f.to];
    let mut periods: ArrayVec<Stretch, PERIODS> = ArrayVec::new();
    crate::search::periods_of(part, &mut periods);
    let pattern = Pattern {
        text: part,
        periods: periods.as_slice(),
    };
    let bytes = crate::rewriting::measure(text, pattern, &text[f.a..f.b]);
    Some(Rewritten {
        bytes,
        from: f.a,
        to: f.b,
    })
}

// The allowed values of a text, into out from index at on; the index behind them.
pub fn put_values(text: &[u8], out: &mut [u8], at: usize) -> usize
    requires { at + length (values_of text.now).allowed ≤ length out.old }
    ensures value { result ≡ at + length (values_of text.now).allowed }
    ensures out_after { out.new ≡ put out.old at (values_of text.now).allowed }
{
    if let Some(f) = crate::emphasis::first_marked(text) {
        let part = &text[f.from..f.to];
        let mut periods: ArrayVec<Stretch, PERIODS> = ArrayVec::new();
        crate::search::periods_of(part, &mut periods);
        let pattern = Pattern {
            text: part,
            periods: periods.as_slice(),
        };
        return crate::rewriting::rewrite(text, pattern, &text[f.a..f.b], out, at);
    }
    lists::put_bytes(out, at, text);
    at + text.len()
}
