// What a part of a stream begins with, as a single primitive: framing, 14, judging. The place is in sextets from the part's start.
#![tactic(auto)]

ghost use Rattle.std.specs.Prelude.{◌≡◌};
ghost use Rattle.format.specs.Units.{text_sextets, binary_sextets};
ghost use Rattle.format.specs.Reading.{reading};
ghost use Rattle.reading_part.specs.Outcome.{outcome};

use format::Framed;

pub fn of_text(part: &[u8]) -> Framed
    ensures { result ≡ outcome (reading (text_sextets part.now)) }
{
    let cs = framing_head::text_head(part);
    let framed = framing::frame_head(false, cs, part.len() / 4);
    match framed {
        Framed::Unframed {
            number: _,
            place: _,
        } => framed,
        Framed::Item { kind, head, size } => {
            if !reading_item::is_primitive(kind) {
                return Framed::Unframed {
                    number: 14,
                    place: 0,
                };
            }
            let own = framing_head::within(cs, size);
            let end = 4 * size;
            let v = judging::own_text(kind, head, size, own, &part[..end], 0);
            judging::told(framed, v)
        }
    }
}

pub fn of_binary(part: &[u8]) -> Framed
    ensures { result ≡ outcome (reading (binary_sextets part.now)) }
{
    let cs = framing_head::binary_head(part);
    let framed = framing::frame_head(false, cs, part.len() / 3);
    match framed {
        Framed::Unframed {
            number: _,
            place: _,
        } => framed,
        Framed::Item { kind, head, size } => {
            if !reading_item::is_primitive(kind) {
                return Framed::Unframed {
                    number: 14,
                    place: 0,
                };
            }
            let own = framing_head::within(cs, size);
            let v = judging::own_binary(kind, head, size, own, 0);
            judging::told(framed, v)
        }
    }
}
