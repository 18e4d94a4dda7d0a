// Reading a single indexed item at an offset of a text: 1, 4 at or past the end, framing by the indexed table, judging, and 3 where there is
// no room for its raw value, which is copied out.
#![tactic(auto)]

ghost use Rattle.std.specs.Prelude.{◌≡◌, length};
ghost use Rattle.format.specs.Indexed.{read_indexed_text, indexed_left};

use format::{Framed, IndexedItem, Refusal, TextOffset};
use indexed_found::text_found;

// An indexed item of a text at an offset; its raw value is copied to the buffer's start. A refused call writes nothing.
pub fn read_indexed_text(
    s: &[u8],
    at: TextOffset,
    out: &mut [u8],
) -> Result<IndexedItem, Refusal<TextOffset>>
    ensures value { result ≡ read_indexed_text s.now at.0 (length out.old) }
    ensures out_after { out.new ≡ indexed_left result s.now at.0 out.old }
{
    if 4194304 < s.len() {
        return Err(Refusal {
            number: 1,
            place: TextOffset(0),
        });
    }
    let from = at.0;
    if s.len() <= from {
        return Err(Refusal {
            number: 4,
            place: TextOffset(from),
        });
    }
    let part = &s[from..];
    match indexed_part::of_text(part) {
        Framed::Unframed { number, place } => Err(Refusal {
            number,
            place: TextOffset(from + place),
        }),
        Framed::Item { kind, head, size } => text_found(part, kind, head, size, out),
    }
}
