// The first bad character of a header's first unit, and how a bad character of a header is told: its number and its place.
#![tactic(auto)]

ghost use Rattle.std.specs.Prelude.{◌≡◌, get_or};
ghost use Rattle.format.specs.declared.Framed.TheVariants.{Unframed};
ghost use Rattle.format.specs.Alphabet.{stranger_number};
ghost use Rattle.format.specs.Framing.{known};

use format::Framed;

// A character outside the alphabet, by its mark: 5 or 19.
pub fn strange(v: u8, place: usize) -> Framed
    ensures { result ≡ Unframed (stranger_number v) place }
{
    let number = alphabet_numbers::stranger_number(v);
    Framed::Unframed { number, place }
}

// The first bad character of the first unit.
pub fn known_first(cs: [u8; 12], next: Framed) -> Framed
    ensures { result ≡ known (λ i. get_or cs i 0) 0 next }
{
    if cs[0] >= 64 {
        return strange(cs[0], 0);
    }
    if cs[1] >= 64 {
        return strange(cs[1], 1);
    }
    if cs[2] >= 64 {
        return strange(cs[2], 2);
    }
    if cs[3] >= 64 {
        return strange(cs[3], 3);
    }
    next
}
