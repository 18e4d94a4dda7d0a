// The next item of a group or stream, framed and judged by its own checks, and how groups are entered (report_kinds). What a walk through
// a group's contents is made of.
#![tactic(auto)]

ghost use Rattle.std.specs.Prelude.{◌≡◌};
ghost use Rattle.format.specs.Units.{text_sextets, binary_sextets};
ghost use Rattle.report_next.specs.Next.{next_own};

use format::Framed;
pub use report_kinds::{holds_indexed, is_entered, is_ruled};

// ---- the next item, framed by the table that is asked, and judged by its own checks

pub fn next_text(part: &[u8], indexed: bool, first: bool, levels: usize) -> Framed
    ensures { result ≡ next_own indexed first (text_sextets part.now) levels }
{
    let cs = framing_head::text_head(part);
    let framed = framing::frame_next_head(indexed, first, cs, part.len() / 4);
    match framed {
        Framed::Unframed {
            number: _,
            place: _,
        } => framed,
        Framed::Item { kind, head, size } => {
            let own = framing_head::within(cs, size);
            let end = 4 * size;
            let v = judging::own_text(kind, head, size, own, &part[..end], levels);
            judging::told(framed, v)
        }
    }
}

pub fn next_binary(part: &[u8], indexed: bool, first: bool, levels: usize) -> Framed
    ensures { result ≡ next_own indexed first (binary_sextets part.now) levels }
{
    let cs = framing_head::binary_head(part);
    let framed = framing::frame_next_head(indexed, first, cs, part.len() / 3);
    match framed {
        Framed::Unframed {
            number: _,
            place: _,
        } => framed,
        Framed::Item { kind, head, size } => {
            let own = framing_head::within(cs, size);
            let v = judging::own_binary(kind, head, size, own, levels);
            judging::told(framed, v)
        }
    }
}
