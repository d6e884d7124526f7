// The texts of regions: the rows between a frame's sides, trimmed, joined with a blank, as UTF-8.
// `bytes` with a place, and `spans`: work slices, lent by the caller, in C too. No vector and no writer over them, since
// `characters::encoding::put_code` takes a slice and a place.
ghost use Rattle.std.specs.Prelude.{◌≡◌, ◌+◌, ◌-◌, ◌≤◌, ◌<◌, ltb, length, take, drop};
ghost use Rattle.model.specs.Layers.{picture_of};
ghost use Rattle.model.specs.Limits.{text_bytes};
ghost use Rattle.cells.specs.rects.Rects.{rect_at, rects_in, RectIn};
ghost use Rattle.characters.specs.utf8.Utf8.{encodes};
ghost use Rattle.text_planes.specs.texts.RegionText.{text_of, texts_of};
ghost use Rattle.text_planes.specs.texts.Rows.{next};
ghost use Rattle.text_planes.specs.texts.Spans.{gathered_in, SpansIn, Slices, PutAt};

use cells::rects::list::Rects;
use model::Refusal;
use model::layer::Layer;
use model::limits::TEXT_BYTES;

// Characters into the bytes from `at` on.
fn put_part(part: &[u32], bytes: &mut [u8], at: usize) -> Result<usize, Refusal>
    requires { (at ≤ text_bytes) × (text_bytes + 4 ≤ length bytes.old) }
    ensures { PutAt (encodes part.now) bytes.old bytes.new at result }
{
    let mut p = at;
    for i in 0..part.len() {
        p = characters::encoding::put_code(bytes, p, part[i]);
        if TEXT_BYTES < p {
            return Err(Refusal::OverLimit);
        }
    }
    Ok(p)
}

// The same behind a blank where the region's text, which begins at `start`, has begun; nothing for no characters.
fn put_next(part: &[u32], bytes: &mut [u8], start: usize, at: usize) -> Result<usize, Refusal>
    requires { (at ≤ text_bytes) × (text_bytes + 4 ≤ length bytes.old) }
    ensures { PutAt (encodes (next (ltb start at) part.now)) bytes.old bytes.new at result }
{
    if part.is_empty() {
        return Ok(at);
    }
    if start < at {
        if TEXT_BYTES <= at {
            return Err(Refusal::OverLimit);
        }
        bytes[at] = 32;
        return put_part(part, bytes, at + 1);
    }
    put_part(part, bytes, at)
}

// The text of rect k, into the bytes from `start` on. Each row's part is read where it lies.
fn put_text(
    text: Layer,
    rects: Rects,
    k: usize,
    bytes: &mut [u8],
    start: usize,
) -> Result<usize, Refusal>
    requires { (k < rects.count) × RectIn text.width text.height (rect_at rects.numbers.now k) × (start ≤ text_bytes) × (text_bytes + 4 ≤ length bytes.old) }
    ensures { PutAt (text_of (picture_of text.entry) (rect_at rects.entry.numbers.now k)) bytes.old bytes.new start result }
{
    let r = rects.at(k);
    let from = r.left + 1;
    let to = r.right - 1;
    let bottom = r.bottom - 1;
    let codes = text.codes;
    let w = text.width;
    let mut at = start;
    for y in r.top + 1..bottom {
        let part = characters::white_space::trim_codes_part(codes, y * w + from, y * w + to);
        at = put_next(&codes[part.from..part.to], bytes, start, at)?;
    }
    Ok(at)
}

// The texts of rects, one behind the other, and where each stands.
pub(crate) fn gather(
    text: Layer,
    rects: Rects,
    bytes: &mut [u8],
    spans: &mut [u32],
) -> Result<usize, Refusal>
    requires { Slices text.width text.height rects bytes.old spans.old }
    ensures answer { gathered_in result bytes.new spans.new rects.entry.count ≡ texts_of (picture_of text.entry) (rects_in rects.entry) }
    ensures spans { SpansIn result bytes.new spans.new rects.entry.count }
{
    let mut at = 0;
    for k in 0..rects.count {
        let e = put_text(text, rects, k, bytes, at)?;
        spans[k * 2] = at as u32;
        spans[k * 2 + 1] = (e - at) as u32;
        at = e;
    }
    Ok(at)
}
