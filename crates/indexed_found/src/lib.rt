// A single indexed item that a part of a text begins with: what is told of it, and 3 where there is no room for its raw value, which is copied
// out.
#![tactic(auto)]

ghost use Rattle.std.specs.Prelude.{◌≡◌, length};
ghost use Rattle.format.specs.Units.{text_sextets};
ghost use Rattle.format.specs.Reading.Reading.{found};
ghost use Rattle.format.specs.Indexed.{text_indexed_answer, indexed_left};
ghost use Rattle.indexed_found.specs.Begun.{Begun};

use format::{IndexedItem, Kind, Refusal, TextOffset};

// The item that a part begins with, where there is room for its raw value: 3. Of a part that does not begin with it nothing is said.
pub fn text_found(
    part: &[u8],
    kind: Kind,
    head: usize,
    size: usize,
    out: &mut [u8],
) -> Result<IndexedItem, Refusal<TextOffset>>
    ensures value { Begun part.now kind head size → result ≡ text_indexed_answer 0 (found kind head size) (text_sextets part.now) (length out.old) }
    ensures out_after { Begun part.now kind head size → out.new ≡ indexed_left result part.now 0 out.old }
{
    let place = TextOffset(0);
    if part.len() / 4 < size {
        return Err(Refusal { number: 4, place });
    }
    let cs = framing_head::text_head(part);
    let own = framing_head::within(cs, size);
    let p = indexed_item::item_of(kind, size, own);
    if out.len() < p.raw {
        return Err(Refusal { number: 3, place });
    }
    let end = 4 * size;
    reading_raw::copy_raw(&part[..end], p.start, out);
    Ok(p)
}
