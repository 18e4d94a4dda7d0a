// What a header's first unit says by the table that is asked, and what a group's letter says of its items: by which table they are read,
// and whether 7 is asked of the first.
#![tactic(auto)]

ghost use Rattle.std.specs.Prelude.{◌≡◌, get_or};
ghost use Rattle.format.specs.Registry.{is_indexed, is_overrideable, opening_by};

use format::Opening;

// Whether the items of the groups of a letter are indexed ones: `-K` and `-L`.
pub fn is_indexed(letter: u8) -> bool
    ensures { result ≡ is_indexed letter }
{
    if letter == 10 { true } else { letter == 11 }
}

// Whether 7 is asked of the first item of the groups of a letter: `-A`, `-B` and `-C`.
pub fn is_overrideable(letter: u8) -> bool
    ensures { result ≡ is_overrideable letter }
{
    letter < 3
}

// What the first unit, as four sextets, opens by the table that is asked.
pub fn opening_by(indexed: bool, u: [u8; 4]) -> Opening
    ensures { result ≡ opening_by indexed (get_or u 0 0) (get_or u 1 0) (get_or u 2 0) (get_or u 3 0) }
{
    if indexed {
        registry_indexed::opening(u)
    } else {
        registry_master::opening(u)
    }
}
