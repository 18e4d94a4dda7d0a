// A following item: a primitive written behind what stands before a cursor, into the part of the buffer from there on. The length
// written is the next cursor. A refused call writes nothing.
#![tactic(auto)]

ghost use Rattle.std.specs.Prelude.{◌≡◌};
ghost use Rattle.writing_at.specs.Cursor.{write_text_at, text_left_at, write_binary_at, binary_left_at};

use format::{BinaryOffset, Code, Refusal, TextOffset};

// A primitive as binary behind what stands before the cursor; the length written is the next cursor.
pub fn write_binary_at(
    code: Code,
    tag: [u8; 11],
    tags: usize,
    raw: &[u8],
    out: &mut [u8],
    cursor: BinaryOffset,
) -> Result<BinaryOffset, Refusal<usize>>
    ensures value { result ≡ write_binary_at code tag tags raw.now out.old cursor.0 }
    ensures out_after { out.new ≡ binary_left_at code tag tags raw.now out.old cursor.0 }
{
    let from = cursor.0;
    let at = writing_cursor::cursor_in(from, out.len());
    let written = writing::write_binary(code, tag, tags, raw, &mut out[at..]);
    match written {
        Err(Refusal { number, place }) => Err(Refusal { number, place }),
        Ok(n) => Ok(BinaryOffset(at + n.0)),
    }
}

// A primitive as text behind what stands before the cursor; the length written is the next cursor.
pub fn write_text_at(
    code: Code,
    tag: [u8; 11],
    tags: usize,
    raw: &[u8],
    out: &mut [u8],
    cursor: TextOffset,
) -> Result<TextOffset, Refusal<usize>>
    ensures value { result ≡ write_text_at code tag tags raw.now out.old cursor.0 }
    ensures out_after { out.new ≡ text_left_at code tag tags raw.now out.old cursor.0 }
{
    let from = cursor.0;
    let at = writing_cursor::cursor_in(from, out.len());
    let written = writing::write_text(code, tag, tags, raw, &mut out[at..]);
    match written {
        Err(why) => Err(why),
        Ok(n) => Ok(TextOffset(at + n.0)),
    }
}
