// The lists of a lent plane in a text, and their bytes as wider numbers.
ghost use Rattle.std.specs.Prelude.{◌≡◌, ◌+◌, ◌++◌, ◌≤◌, length, IfSome};
ghost use Rattle.arrayvec.specs.ArrayVec.{array_vec_len};
ghost use Rattle.std.specs.Option.{option_map};
ghost use Rattle.answers.specs.lent_lists.LentText.{counted, lent_in};
ghost use Rattle.answers.specs.lent_lists.Lists.{lent_of};

use crate::lent_lists::six_lists::Lists;
use arrayvec::ArrayVec;
use model::limits::TEXT_BYTES;

pub mod six_lists;

// At most so many row lengths, region numbers, and offsets or lengths of a lent plane.
pub const ROW_MOST: usize = 255;

pub const REGION_MOST: usize = 4500;

pub const PART_MOST: usize = 1100;

// The list that stands behind its count, and what stands behind it.
#[tactic(auto, unfolding(crate::specs::lent_lists::LentText::counted))]
fn cut(s: &[u8], most: usize) -> Option<(&[u8], &[u8])>
    ensures cut { option_map (λ p. record { list = p.0.now; rest = p.1.now }) result ≡ counted most s.now }
    ensures few { IfSome result (λ p. length p.0.now ≤ most) }
{
    if s.len() < 2 {
        return None;
    }
    let n = usize::from(s[0]) * 256 + usize::from(s[1]);
    if most < n {
        return None;
    }
    let end = 2 + n;
    if s.len() < end {
        return None;
    }
    Some((&s[2..end], &s[end..]))
}

// The lists of a lent plane in a text.
#[tactic(auto, using(crate::proofs::lent_lists::LentTextLaws::left_over), unfolding(crate::specs::lent_lists::LentText::lent_in))]
pub fn lists_in(s: &[u8]) -> Option<Lists<'_>>
    ensures { option_map lent_of result ≡ lent_in s.now }
{
    let (rows, behind) = cut(s, ROW_MOST)?;
    let (kinds, behind) = cut(behind, TEXT_BYTES)?;
    let (regions, behind) = cut(behind, REGION_MOST)?;
    let (offsets, behind) = cut(behind, PART_MOST)?;
    let (sizes, behind) = cut(behind, PART_MOST)?;
    let (bytes, behind) = cut(behind, TEXT_BYTES)?;
    if 0 < behind.len() {
        return None;
    }
    Some(Lists {
        rows,
        kinds,
        regions,
        offsets,
        sizes,
        bytes,
    })
}

// The bytes of a list, as wider numbers, behind what the vector holds: one that is answered would be moved over its whole capacity.
pub(crate) fn widen<const N: usize>(list: &[u8], wide: &mut ArrayVec<u32, N>)
    requires { array_vec_len wide.old + length list.now ≤ N }
    ensures { wide.new.items ≡ wide.old.items ++ list.now }
{
    for &b in list {
        wide.push(u32::from(b));
    }
}
