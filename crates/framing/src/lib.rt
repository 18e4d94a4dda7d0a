// Framing an item by either table: one header rule on sextets, which are read from either form. Sizes are in units, places in sextets
// from the item's start. A part of a stream from the item's start to the enclosing end is lent.
#![tactic(auto)]

ghost use Rattle.std.specs.Prelude.{◌≡◌, get_or};
ghost use Rattle.format.specs.Units.{text_sextets, binary_sextets};
ghost use Rattle.format.specs.Registry.{opening_by};
ghost use Rattle.format.specs.Framing.{frame_with, ruled, frame_ruled};
ghost use Rattle.framing.specs.Next.{next_by};

use format::{Framed, Kind};

// ---- the header rule

// An item with these first sextets, which must end within so many units, by the table that is asked: 4, 5 or 19, 6, 4, 5 or 19, 4.
pub fn frame_head(indexed: bool, cs: [u8; 12], len: usize) -> Framed
    ensures { result ≡ frame_with (opening_by indexed) (λ i. get_or cs i 0) len }
{
    if len < 1 {
        return Framed::Unframed {
            number: 4,
            place: 0,
        };
    }
    let op = registry::opening_by(indexed, [cs[0], cs[1], cs[2], cs[3]]);
    let item = framing_opening::frame_opening(op, cs, len);
    framing_first::known_first(cs, item)
}

// The same where a genus/version must be `AAACAA`: then 7.
pub fn frame_ruled_head(indexed: bool, cs: [u8; 12], len: usize) -> Framed
    ensures { result ≡ ruled (λ i. get_or cs i 0) (frame_with (opening_by indexed) (λ i. get_or cs i 0) len) }
{
    let framed = frame_head(indexed, cs, len);
    match framed {
        Framed::Item {
            kind,
            head: _,
            size: _,
        } => match kind {
            Kind::Fixed(_) => framed,
            Kind::Variable {
                letter: _,
                lead: _,
                count: _,
            } => framed,
            Kind::Group { letter: _ } => framed,
            Kind::Genus => {
                if framing_genus::is_ours(cs) {
                    framed
                } else {
                    Framed::Unframed {
                        number: 7,
                        place: 0,
                    }
                }
            }
            Kind::Indexed(_) => framed,
        },
        Framed::Unframed {
            number: _,
            place: _,
        } => framed,
    }
}

// The next item of a group or stream, by the table that is asked: 7 is asked where `first` says.
pub fn frame_next_head(indexed: bool, first: bool, cs: [u8; 12], len: usize) -> Framed
    ensures { result ≡ next_by indexed first (λ i. get_or cs i 0) len }
{
    if first {
        frame_ruled_head(indexed, cs, len)
    } else {
        frame_head(indexed, cs, len)
    }
}

// ---- either form

// The item at the start of a part of a text or a binary, by the master table, where 7 is asked.
pub fn frame_ruled_text(s: &[u8]) -> Framed
    ensures { result ≡ frame_ruled (text_sextets s.now) }
{
    let head = framing_head::text_head(s);
    frame_ruled_head(false, head, s.len() / 4)
}

pub fn frame_ruled_binary(s: &[u8]) -> Framed
    ensures { result ≡ frame_ruled (binary_sextets s.now) }
{
    let head = framing_head::binary_head(s);
    frame_ruled_head(false, head, s.len() / 3)
}
