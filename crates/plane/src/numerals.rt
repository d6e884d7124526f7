// The rule number that a text is.
ghost use Rattle.std.specs.Prelude.{◌≡◌};
ghost use Rattle.plane.specs.numerals.RuleNumbers.{number_of, unsigned};

// The number that a text is, digits alone.
fn unsigned_number(s: &[u8]) -> Option<u64>
    ensures { result ≡ unsigned s.now }
{
    if s.len() == 0 {
        return None;
    }
    let mut a: u64 = 0;
    for &c in s {
        if c < 0x30 {
            return None;
        }
        if 0x39 < c {
            return None;
        }
        let d = u64::from(c) - 0x30;
        if (0xFFFF_FFFF_FFFF_FFFF - d) / 10 < a {
            return None;
        }
        a = a * 10 + d;
    }
    Some(a)
}

// The rule number of a trimmed text.
pub fn rule_number(s: &[u8]) -> Option<u64>
    ensures { result ≡ number_of s.now }
{
    if s.len() == 0 {
        return None;
    }
    if s[0] == 0x2B {
        return unsigned_number(&s[1..]);
    }
    unsigned_number(s)
}
