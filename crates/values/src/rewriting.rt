// One text put for another everywhere in a text: the result measured and written.
// A slice with a place or a count: it is lent by the caller, in C too, as `record` says.
ghost use Rattle.std.specs.Prelude.{◌≡◌, ◌+◌, ◌≤◌, ◌<◌, length};
ghost use Rattle.lists.specs.Put.{put};
ghost use Rattle.values.specs.rewriting.Replaced.{replace_all};

use crate::search::Pattern;

// How many bytes the text has with q for every p.
pub fn measure(s: &[u8], p: Pattern, q: &[u8]) -> usize
    requires { (0 < length p.text.now) × (length q.now ≤ length p.text.now) }
    ensures { result ≡ length (replace_all 0 p.entry.text.now q.now s.now) }
{
    let mut i: usize = 0;
    let mut size: usize = 0;
    // No `for`: each turn goes on behind the next text that is replaced.
    while i < s.len() {
        let r = crate::search::find(s, i, p);
        size += r - i;
        if r == s.len() {
            return size;
        }
        size += q.len();
        i = r + p.text.len();
    }
    size
}

// The text with q for every p, into out from index at on; the index behind it.
pub(crate) fn rewrite(s: &[u8], p: Pattern, q: &[u8], out: &mut [u8], at: usize) -> usize
    requires { (0 < length p.text.now) × (at + length (replace_all 0 p.text.now q.now s.now) ≤ length out.old) }
    ensures value { result ≡ at + length (replace_all 0 p.entry.text.now q.now s.now) }
    ensures out_after { out.new ≡ put out.old at (replace_all 0 p.entry.text.now q.now s.now) }
{
    let mut i: usize = 0;
    let mut end = at;
    // No `for`: each turn goes on behind the next text that is replaced.
    while i < s.len() {
        let r = crate::search::find(s, i, p);
        lists::put_bytes(out, end, &s[i..r]);
        end += r - i;
        if r == s.len() {
            return end;
        }
        lists::put_bytes(out, end, q);
        end += q.len();
        i = r + p.text.len();
    }
    end
}
