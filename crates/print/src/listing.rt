// A record's lines, from its bytes.
// Places are indices into the whole record: its words tell them.
ghost use Rattle.std.specs.Prelude.{◌≡◌, ◌+◌, ◌*◌, ◌≤◌, ◌<◌, length, take, drop};
ghost use Rattle.arrayvec.specs.ArrayVec.{array_vec_len};
ghost use Rattle.print.specs.Decimal.{Written};
ghost use Rattle.print.specs.Lines.{count_line};
ghost use Rattle.record.specs.Compared.{word_at};
ghost use Rattle.print.specs.listing.RecordLines.{is_absent, offset_of, length_of, part_words, slot_line, counts_read, count_room, head_read, head_room, record_lines, Sound, line_room};

use arrayvec::ArrayVec;

// The word at index `at`.
fn word_at(bytes: &[u8], at: usize) -> usize
    requires { at + 4 ≤ length bytes.now }
    ensures { result ≡ word_at bytes.now at }
{
    u32::from_le_bytes([bytes[at], bytes[at + 1], bytes[at + 2], bytes[at + 3]]) as usize
}

// Whether a slot of this offset and length is absent.
fn is_absent(offset: usize, size: usize) -> bool
    ensures { result ≡ is_absent offset size }
{
    offset == 0 && size == 0
}

// The word at index `k`, behind a name.
fn put_line<const N: usize>(out: &mut ArrayVec<u8, N>, name: &[u8], bytes: &[u8], k: usize)
    requires { (array_vec_len out.old + length name.now + 21 ≤ N) × (k + 4 ≤ length bytes.now) }
    ensures { Written out.old.items out.new.items (count_line name.now (word_at bytes.now k)) (length name.now + 21) }
{
    crate::put_count(out, name, word_at(bytes, k));
}

// The counts, a line each.
fn put_counts<const N: usize>(out: &mut ArrayVec<u8, N>, bytes: &[u8])
    requires { (array_vec_len out.old + count_room ≤ N) × (28 ≤ length bytes.now) }
    ensures { Written out.old.items out.new.items (counts_read bytes.now) count_room }
{
    put_line(out, b"inputs ", bytes, 12);
    put_line(out, b"outputs ", bytes, 16);
    put_line(out, b"annotations ", bytes, 20);
    put_line(out, b"rules ", bytes, 24);
}

// Total bytes, policy, orientation and the counts, a line each.
fn put_head<const N: usize>(out: &mut ArrayVec<u8, N>, bytes: &[u8])
    requires { (array_vec_len out.old + head_room ≤ N) × (28 ≤ length bytes.now) }
    ensures { Written out.old.items out.new.items (head_read bytes.now) head_room }
{
    put_line(out, b"bytes ", bytes, 0);
    put_line(out, b"policy ", bytes, 4);
    put_line(out, b"orientation ", bytes, 8);
    put_counts(out, bytes);
}

// The offset and the length of a part, and the part.
fn put_part<const N: usize>(out: &mut ArrayVec<u8, N>, bytes: &[u8], offset: usize, size: usize)
    requires { (array_vec_len out.old + 44 + size ≤ N) × (offset + size ≤ length bytes.now) }
    ensures { Written out.old.items out.new.items (part_words offset size (take size (drop offset bytes.now))) (44 + size) }
{
    crate::put_behind(out, offset as u64);
    crate::put_behind(out, size as u64);
    out.push(b' ');
    crate::put_word(out, &bytes[offset..offset + size]);
    out.push(b'\n');
}

// The line of slot i.
fn put_slot<const N: usize>(out: &mut ArrayVec<u8, N>, bytes: &[u8], i: usize)
    requires { (array_vec_len out.old + 69 + length_of bytes.now i ≤ N) × (48 + 8 * i ≤ length bytes.now) × (offset_of bytes.now i + length_of bytes.now i ≤ length bytes.now) }
    ensures { Written out.old.items out.new.items (slot_line bytes.now i) (69 + length_of bytes.now i) }
{
    let offset = word_at(bytes, 40 + 8 * i);
    let size = word_at(bytes, 40 + 8 * i + 4);
    crate::put_word(out, b"slot ");
    crate::put_number(out, i as u64);
    if is_absent(offset, size) {
        crate::put_word(out, b" absent\n");
        return;
    }
    put_part(out, bytes, offset, size);
}

// The lines of a record.
pub fn put_record<const N: usize>(out: &mut ArrayVec<u8, N>, bytes: &[u8])
    requires { (array_vec_len out.old + line_room (length bytes.now) ≤ N) × Sound bytes.now }
    ensures { Written out.old.items out.new.items (record_lines bytes.now) (line_room (length bytes.now)) }
{
    put_head(out, bytes);
    for i in 0..word_at(bytes, 32) {
        put_slot(out, bytes, i);
    }
}
