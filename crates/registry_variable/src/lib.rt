// The letters of the variable types, and what the selectors `4` to `6` and `7` to `9` open.
#![tactic(auto)]

ghost use Rattle.std.specs.Prelude.{◌≡◌, ◌<◌};
ghost use Rattle.format.specs.Registry.{is_type};
ghost use Rattle.registry_variable.specs.Parts.{small_variable, large_variable};

use format::{Kind, Opening};

// Whether a sextet is a variable type's letter.
#[tactic(auto, unfolding(format::specs::Registry::is_type))]
pub fn is_type(t: u8) -> bool
    ensures { result ≡ is_type t }
{
    if t < 6 { true } else { t == 7 }
}

// A value of up to 4,095 units, counted in the first unit.
#[tactic(auto, unfolding(crate::specs::Parts::small_variable))]
pub fn small_variable(lead: u8, t: u8, c: u8, d: u8) -> Opening
    ensures { result ≡ small_variable lead t c d }
{
    if is_type(t) {
        let n = usize::from(c) * 64 + usize::from(d);
        Opening::Short {
            kind: Kind::Variable {
                letter: t,
                lead,
                count: n,
            },
            size: 1 + n,
        }
    } else {
        Opening::Unknown
    }
}

// A longer one, counted in the second.
#[tactic(auto, unfolding(crate::specs::Parts::large_variable))]
pub fn large_variable(lead: u8, b: u8, c: u8, d: u8) -> Opening
    ensures { result ≡ large_variable lead b c d }
{
    if b == 0 {
        if c == 0 {
            if is_type(d) {
                return Opening::LargeVariable { letter: d, lead };
            }
        }
    }
    Opening::Unknown
}
