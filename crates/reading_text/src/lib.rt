// Reading a single primitive at an offset of a text: 1, 4 at or past the end, framing, 14, judging, and 3 where there is no room for
// its value, raw bytes or a text, which is copied out.
#![tactic(auto)]

ghost use Rattle.std.specs.Prelude.{◌≡◌, ◌≤◌, length};
ghost use Rattle.format.specs.declared.Framed.TheVariants.{Item};
ghost use Rattle.format.specs.Units.{text_sextets};
ghost use Rattle.format.specs.Reading.{reading, text_answer, read_text, value_left};
ghost use Rattle.format.specs.Reading.Reading.{found};
ghost use Rattle.reading_part.specs.Outcome.{outcome};
ghost use Rattle.reading_text.specs.Told.{no_text, Tells};

use format::{Framed, Kind, Primitive, PrimitiveRead, Refusal, TextOffset};

fn no_text(number: u8, place: usize) -> PrimitiveRead<TextOffset>
    ensures { result ≡ no_text number place }
{
    PrimitiveRead {
        found: Err(Refusal {
            number,
            place: TextOffset(place),
        }),
        tag: [0; 11],
    }
}

// What is told of the item that a part begins with.
#[derive(Clone, Copy)]
struct Told {
    item: Primitive,
    tag: [u8; 11],
}

fn text_item(part: &[u8], kind: Kind, head: usize, size: usize) -> Told
    requires { (outcome (reading (text_sextets part.now)) ≡ Item kind head size) × (length part.now ≤ 4194304) }
    ensures { Tells part.now kind head size result.item result.tag }
{
    let cs = framing_head::text_head(part);
    let own = framing_head::within(cs, size);
    let start = reading_fill::text_start(kind, head, size, own);
    let text = reading_fill::text_size(size, start);
    let item = reading_item::primitive_of(kind, head, size, text);
    let tag = reading_tag::tag_of(kind, own);
    Told { item, tag }
}

// The item that a part begins with, where there is room for its value: 3.
fn text_found(
    part: &[u8],
    kind: Kind,
    head: usize,
    size: usize,
    out: &mut [u8],
) -> PrimitiveRead<TextOffset>
    requires { (outcome (reading (text_sextets part.now)) ≡ Item kind head size) × (length part.now ≤ 4194304) }
    ensures value { result ≡ text_answer 0 (found kind head size) (text_sextets part.now) (length out.old) }
    ensures out_after { out.new ≡ value_left result.found part.now 0 out.old }
{
    let read = text_item(part, kind, head, size);
    let p = read.item;
    if reading_room::lacks(out.len(), p.raw, p.text) {
        return no_text(3, 0);
    }
    let end = 4 * size;
    reading_value::copy_value(&part[..end], p.start, p.raw, p.text, out);
    let tag = read.tag;
    PrimitiveRead { found: Ok(p), tag }
}

// A primitive of a text at an offset; its value is copied to the buffer's start. A refused call writes nothing.
pub fn read_text(s: &[u8], at: TextOffset, out: &mut [u8]) -> PrimitiveRead<TextOffset>
    ensures value { result ≡ read_text s.now at.0 (length out.old) }
    ensures out_after { out.new ≡ value_left result.found s.now at.0 out.old }
{
    if 4194304 < s.len() {
        return no_text(1, 0);
    }
    let from = at.0;
    if s.len() <= from {
        return no_text(4, from);
    }
    let part = &s[from..];
    match reading_part::of_text(part) {
        Framed::Unframed { number, place } => no_text(number, from + place),
        Framed::Item { kind, head, size } => text_found(part, kind, head, size, out),
    }
}
