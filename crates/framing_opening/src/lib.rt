// An item by what its first unit opens: 6, what is asked of the second unit, and whether the item ends within what is left, 4.
#![tactic(auto)]

ghost use Rattle.std.specs.Prelude.{◌≡◌, get_or};
ghost use Rattle.format.specs.Framing.{fit, headed};

use format::{Framed, Kind, Opening};

fn fitted(kind: Kind, head: usize, size: usize, len: usize) -> Framed
    ensures { result ≡ fit kind head size len }
{
    if len < size {
        Framed::Unframed {
            number: 4,
            place: 0,
        }
    } else {
        Framed::Item { kind, head, size }
    }
}

// 6, and what stands behind it.
pub fn frame_opening(op: Opening, cs: [u8; 12], len: usize) -> Framed
    ensures { result ≡ headed op (λ i. get_or cs i 0) len }
{
    let unit = [cs[4], cs[5], cs[6], cs[7]];
    let size = registry_extent::extent(op, unit);
    match op {
        Opening::Unknown => Framed::Unframed {
            number: 6,
            place: 0,
        },
        Opening::Short { kind, size } => fitted(kind, 1, size, len),
        Opening::Long { kind, size: _ } => framing_second::seconded(
            cs,
            len,
            fitted(kind, 2, size, len),
        ),
        Opening::LargeVariable { letter, lead } => {
            let count = registry_extent::number(unit);
            let kind = Kind::Variable {
                letter,
                lead,
                count,
            };
            let item = fitted(kind, 2, size, len);
            framing_second::seconded(cs, len, item)
        }
        Opening::LargeGroup { letter, digit: _ } => {
            let item = fitted(Kind::Group { letter }, 2, size, len);
            framing_second::seconded(cs, len, item)
        }
        Opening::Version => {
            let item = fitted(Kind::Genus, 2, size, len);
            framing_second::seconded(cs, len, item)
        }
    }
}
