// What a part of a stream begins with, as a single indexed item: framing by the indexed table, judging. Never 14: any other start is 6. The
// place is in sextets from the part's start.
#![tactic(auto)]

ghost use Rattle.std.specs.Prelude.{◌≡◌};
ghost use Rattle.format.specs.Units.{text_sextets, binary_sextets};
ghost use Rattle.format.specs.Indexed.{reading_indexed};
ghost use Rattle.reading_part.specs.Outcome.{outcome};

use format::Framed;

pub fn of_text(part: &[u8]) -> Framed
    ensures { result ≡ outcome (reading_indexed (text_sextets part.now)) }
{
    let cs = framing_head::text_head(part);
    let framed = framing::frame_head(true, cs, part.len() / 4);
    match framed {
        Framed::Unframed {
            number: _,
            place: _,
        } => framed,
        Framed::Item { kind, head, size } => {
            let own = framing_head::within(cs, size);
            let end = 4 * size;
            let v = judging::own_text(kind, head, size, own, &part[..end], 0);
            judging::told(framed, v)
        }
    }
}

pub fn of_binary(part: &[u8]) -> Framed
    ensures { result ≡ outcome (reading_indexed (binary_sextets part.now)) }
{
    let cs = framing_head::binary_head(part);
    let framed = framing::frame_head(true, cs, part.len() / 3);
    match framed {
        Framed::Unframed {
            number: _,
            place: _,
        } => framed,
        Framed::Item { kind, head, size } => {
            let own = framing_head::within(cs, size);
            let v = judging::own_binary(kind, head, size, own, 0);
            judging::told(framed, v)
        }
    }
}
