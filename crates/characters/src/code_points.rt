// Code points of a text in UTF-8: checked, and known to stand at a place.
// Places are indices into the whole text, as in `utf8`.
ghost use Rattle.std.specs.Prelude.{◌≡◌, drop};
ghost use Rattle.characters.specs.utf8.Utf8.{decode, StandsAt, check, checked};
ghost use Rattle.characters.specs.declared.utf8.Decoded.TheVariants.{Char};

// The check of the bytes from an index on.
pub fn validate_from(s: &[u8], from: usize) -> Result<(), usize>
    ensures { result ≡ check 0 from (drop from s.now) }
{
    let mut at = from;
    // No `for`: each turn goes on by the bytes of a code point.
    while at < s.len() {
        let Some(n) = crate::utf8::passed(s, at) else {
            return Err(at);
        };
        at += n;
    }
    Ok(())
}

// Not `core::str::from_utf8`: it tells what is valid in words of its own (`IsUtf8`, `utf8_valid_len`) and not by table 3-7, and
// `validate_from`, which goes on from a place, would still be needed beside it.
pub fn validate(s: &[u8]) -> Result<(), usize>
    ensures { result ≡ checked s.now }
{
    validate_from(s, 0)
}

// A code point with its number of bytes.
#[derive(Clone, Copy)]
pub struct CodePoint {
    pub code: u32,
    pub bytes: usize,
}

// The code point that is known to stand at a place: nothing of it is tested.
pub fn known(s: &[u8], at: usize) -> CodePoint
    requires { StandsAt s.now at }
    ensures { decode (drop at s.now) ≡ Char result.code result.bytes }
{
    let a = s[at] as u32;
    if a <= 0x7F {
        return CodePoint { code: a, bytes: 1 };
    }
    let b = s[at + 1] as u32;
    if a <= 0xDF {
        return CodePoint {
            code: a * 64 + b - 0x3080,
            bytes: 2,
        };
    }
    let c = s[at + 2] as u32;
    if a <= 0xEF {
        return CodePoint {
            code: a * 4096 + b * 64 + c - 0xE2080,
            bytes: 3,
        };
    }
    let d = s[at + 3] as u32;
    CodePoint {
        code: a * 262144 + b * 4096 + c * 64 + d - 0x3C82080,
        bytes: 4,
    }
}
