// Reading a single primitive at an offset of a binary: 1, 4 at or past the end, framing, 14, judging, and 3 where there is no room for a
// text, which is copied out. Any other value is told by its place, and the part where it lies is handed back.
#![tactic(auto)]

ghost use Rattle.std.specs.Prelude.{◌≡◌, ◌+◌, ◌-◌, ◌*◌, ◌≤◌, length, take, drop};
ghost use Rattle.format.specs.Reading.{read_binary, chars_left, part_at};
ghost use Rattle.reading_chars.specs.Chars.{chars_into};
ghost use Rattle.reading_found.specs.Found.{any_text};
ghost use Rattle.reading_binary.specs.Part.{part_start};

use format::{BinaryOffset, PrimitiveRead, TextOffset};

// The text of an item of so many units from a byte on: its last characters.
fn copy_text(s: &[u8], from: usize, size: usize, text: usize, out: &mut [u8])
    requires { (from + 3 * size ≤ length s.now) × (length s.now ≤ 3145728) × (text ≤ 4 * size) × (text ≤ length out.old) }
    ensures { out.new ≡ chars_into (take (3 * size) (drop from s.now)) (4 * size - text) out.old }
{
    let end = from + 3 * size;
    let start = 4 * size - text;
    reading_chars::copy_chars(&s[from..end], TextOffset(start), out);
}

// A primitive of a binary at an offset. A text is copied to the buffer's start; any other raw value is not: it lies where `start` and
// `raw` say. A refused call writes nothing.
pub fn read_binary(s: &[u8], at: BinaryOffset, out: &mut [u8]) -> PrimitiveRead<BinaryOffset>
    ensures value { result ≡ read_binary s.now at.0 (length out.old) }
    ensures out_after { out.new ≡ chars_left result.found s.now at.0 out.old }
{
    let read = reading_found::found_at(s, at);
    let found = read.found;
    match found {
        Err(_) => read,
        Ok(p) => {
            if out.len() < p.text {
                return reading_found::no_binary(3, 0);
            }
            copy_text(s, at.0, p.size, p.text, out);
            read
        }
    }
}

// The part of the binary where the raw value of the primitive at an offset lies: at the item's end, and empty there for a text. An empty
// part, at the stream's start, where reading refuses.
pub fn raw_binary(s: &[u8], at: BinaryOffset) -> &[u8]
    ensures result_value { result.now ≡ part_at s.now at.0 (read_binary s.now at.0 any_text).found }
    ensures ref_ptr_value { result.ref_ptr ≡ (s.entry.ref_ptr.0, part_start at.0 (read_binary s.now at.0 any_text).found + s.entry.ref_ptr.1) }
{
    let from = at.0;
    let read = reading_found::found_at(s, at);
    let found = read.found;
    match found {
        Err(_) => &s[..0],
        Ok(p) => {
            let start = from + p.start.0;
            let end = start + p.raw;
            &s[start..end]
        }
    }
}
