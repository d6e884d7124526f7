// Code points written as UTF-8.
// `out` with a place, and no vector: the texts of regions are written to a slice that the caller lends, in C too.
ghost use Rattle.std.specs.Prelude.{◌≡◌, ◌+◌, ◌<◌, ◌≤◌, length, set};
ghost use Rattle.lists.specs.Put.{put};
ghost use Rattle.characters.specs.utf8.Utf8.{encode};

fn put_byte(out: &mut [u8], at: usize, b: u32)
    requires { (b < 256) × (at < length out.old) }
    ensures { out.new ≡ set out.old at b }
{
    out[at] = b as u8;
}

// The bytes of a code point, into out from `at` on; the place behind them.
// By hand, where the library has `char::encode_utf8`: a layer holds numbers, and this asks of none that it is a `char`.
pub fn put_code(out: &mut [u8], at: usize, c: u32) -> usize
    requires { at + 4 ≤ length out.old }
    ensures { (result ≡ at + length (encode c)) × (out.new ≡ put out.old at (encode c)) }
{
    if c <= 0x7F {
        put_byte(out, at, c);
        return at + 1;
    }
    if c <= 0x7FF {
        put_byte(out, at, 0xC0 + c / 64);
        put_byte(out, at + 1, 0x80 + c % 64);
        return at + 2;
    }
    if c <= 0xFFFF {
        put_byte(out, at, 0xE0 + c / 4096);
        put_byte(out, at + 1, 0x80 + c / 64 % 64);
        put_byte(out, at + 2, 0x80 + c % 64);
        return at + 3;
    }
    put_byte(out, at, 0xF0 + c / 262144 % 8);
    put_byte(out, at + 1, 0x80 + c / 4096 % 64);
    put_byte(out, at + 2, 0x80 + c / 64 % 64);
    put_byte(out, at + 3, 0x80 + c % 64);
    at + 4
}
