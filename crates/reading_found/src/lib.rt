// What stands at an offset of a binary, as a single primitive: 1, 4 at or past the end, framing, 14, judging. Room is not asked, and
// nothing is copied out.
#![tactic(auto)]

ghost use Rattle.std.specs.Prelude.{◌≡◌, ◌≤◌, length};
ghost use Rattle.format.specs.declared.Framed.TheVariants.{Item};
ghost use Rattle.format.specs.Units.{binary_sextets};
ghost use Rattle.format.specs.Reading.{reading, binary_answer, read_binary};
ghost use Rattle.format.specs.Reading.Reading.{found};
ghost use Rattle.reading_part.specs.Outcome.{outcome};
ghost use Rattle.reading_found.specs.Found.{no_binary, any_text};

use format::{BinaryOffset, Framed, Kind, PrimitiveRead, Refusal};

// A refusal has no tag characters.
pub fn no_binary(number: u8, place: usize) -> PrimitiveRead<BinaryOffset>
    ensures { result ≡ no_binary number place }
{
    PrimitiveRead {
        found: Err(Refusal {
            number,
            place: BinaryOffset(place),
        }),
        tag: [0; 11],
    }
}

// The item that a part begins with.
fn binary_found(part: &[u8], kind: Kind, head: usize, size: usize) -> PrimitiveRead<BinaryOffset>
    requires { (outcome (reading (binary_sextets part.now)) ≡ Item kind head size) × (length part.now ≤ 3145728) }
    ensures { result ≡ binary_answer 0 (found kind head size) (binary_sextets part.now) any_text }
{
    let cs = framing_head::binary_head(part);
    let own = framing_head::within(cs, size);
    let start = reading_fill::text_start(kind, head, size, own);
    let text = reading_fill::text_size(size, start);
    let p = reading_item::primitive_of(kind, head, size, text);
    let tag = reading_tag::tag_of(kind, own);
    PrimitiveRead { found: Ok(p), tag }
}

// A primitive of a binary at an offset, its room not asked.
pub fn found_at(s: &[u8], at: BinaryOffset) -> PrimitiveRead<BinaryOffset>
    ensures { result ≡ read_binary s.now at.0 any_text }
{
    if 3145728 < s.len() {
        return no_binary(1, 0);
    }
    let from = at.0;
    if s.len() <= from {
        return no_binary(4, from);
    }
    let part = &s[from..];
    match reading_part::of_binary(part) {
        Framed::Unframed { number, place } => no_binary(number, from + (place / 4 * 3 + place % 4)),
        Framed::Item { kind, head, size } => binary_found(part, kind, head, size),
    }
}
