// The hit policy that a text is.
// A policy is told by the bytes of a text, so the cases are numbers.
ghost use Rattle.std.specs.Prelude.{◌≡◌, [], ◌∷◌};
ghost use Rattle.plane.specs.hit_policies.Letters.{policy_of};

use model::{BuiltinAggregator, HitPolicy};

// The policy of a text of one letter, by its byte in the text.
fn letter_policy(c: u8) -> Option<HitPolicy>
    ensures { result ≡ policy_of (c ∷ []) }
{
    match c {
        0x55 => Some(HitPolicy::Unique),
        0x41 => Some(HitPolicy::Any),
        0x50 => Some(HitPolicy::Priority),
        0x46 => Some(HitPolicy::First),
        0x52 => Some(HitPolicy::RuleOrder),
        0x4F => Some(HitPolicy::OutputOrder),
        0x43 => Some(HitPolicy::Collect(BuiltinAggregator::List)),
        _ => None,
    }
}

// The policy of a C and a sign.
fn collect_policy(c: u8) -> Option<HitPolicy>
    ensures { result ≡ policy_of (0x43 ∷ c ∷ []) }
{
    match c {
        0x2B => Some(HitPolicy::Collect(BuiltinAggregator::Sum)),
        0x23 => Some(HitPolicy::Collect(BuiltinAggregator::Count)),
        0x3C => Some(HitPolicy::Collect(BuiltinAggregator::Min)),
        0x3E => Some(HitPolicy::Collect(BuiltinAggregator::Max)),
        _ => None,
    }
}

// The hit policy of a trimmed text.
pub(crate) fn hit_policy(s: &[u8]) -> Option<HitPolicy>
    ensures { result ≡ policy_of s.now }
{
    if s.len() == 1 {
        return letter_policy(s[0]);
    }
    if s.len() != 2 {
        return None;
    }
    if s[0] != 0x43 {
        return None;
    }
    collect_policy(s[1])
}
