// What a first unit that begins with `-` opens: a small group, a large one, or a genus/version.
#![tactic(auto)]

ghost use Rattle.std.specs.Prelude.{◌≡◌, ◌<◌};
ghost use Rattle.registry_group.specs.Parts.{group_opening};

use format::{Kind, Opening};

// By the sextets behind the `-`.
#[tactic(auto, unfolding(crate::specs::Parts::group_opening, format::specs::Registry::is_group))]
pub fn group(b: u8, c: u8, d: u8) -> Opening
    ensures { result ≡ group_opening b c d }
{
    if b < 29 {
        return Opening::Short {
            kind: Kind::Group { letter: b },
            size: 1 + (usize::from(c) * 64 + usize::from(d)),
        };
    }
    if b == 62 {
        if c < 29 {
            return Opening::LargeGroup {
                letter: c,
                digit: d,
            };
        }
        return Opening::Unknown;
    }
    if b == 63 {
        return Opening::Version;
    }
    Opening::Unknown
}
