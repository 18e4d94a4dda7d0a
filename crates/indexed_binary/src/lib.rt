// Reading a single indexed item at an offset of a binary: 1, 4 at or past the end, framing by the indexed table, judging. The raw value is
// told by its place.
#![tactic(auto)]

ghost use Rattle.std.specs.Prelude.{◌≡◌};
ghost use Rattle.format.specs.declared.Framed.TheVariants.{Item};
ghost use Rattle.format.specs.Units.{binary_sextets};
ghost use Rattle.format.specs.Reading.Reading.{found};
ghost use Rattle.format.specs.Indexed.{reading_indexed, binary_indexed_answer, read_indexed_binary};
ghost use Rattle.reading_part.specs.Outcome.{outcome};

use format::{BinaryOffset, Framed, IndexedItem, Kind, Refusal};

// The item that a part begins with.
fn binary_found(
    part: &[u8],
    kind: Kind,
    head: usize,
    size: usize,
) -> Result<IndexedItem, Refusal<BinaryOffset>>
    requires { outcome (reading_indexed (binary_sextets part.now)) ≡ Item kind head size }
    ensures { result ≡ binary_indexed_answer 0 (found kind head size) (binary_sextets part.now) }
{
    let cs = framing_head::binary_head(part);
    let own = framing_head::within(cs, size);
    Ok(indexed_item::item_of(kind, size, own))
}

// An indexed item of a binary at an offset. Its raw value is not copied: it lies where `start` and `raw` say.
pub fn read_indexed_binary(s: &[u8], at: BinaryOffset) -> Result<IndexedItem, Refusal<BinaryOffset>>
    ensures { result ≡ read_indexed_binary s.now at.0 }
{
    if 3145728 < s.len() {
        return Err(Refusal {
            number: 1,
            place: BinaryOffset(0),
        });
    }
    let from = at.0;
    if s.len() <= from {
        return Err(Refusal {
            number: 4,
            place: BinaryOffset(from),
        });
    }
    let part = &s[from..];
    match indexed_part::of_binary(part) {
        Framed::Unframed { number, place } => {
            Err(Refusal {
                number,
                place: BinaryOffset(from + (place / 4 * 3 + place % 4)),
            })
        }
        Framed::Item { kind, head, size } => binary_found(part, kind, head, size),
    }
}
