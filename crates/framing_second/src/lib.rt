// What is asked of a header's second unit: that it is there, 4, and no character of it is bad, 5 or 19.
#![tactic(auto)]

ghost use Rattle.std.specs.Prelude.{◌≡◌, get_or};
ghost use Rattle.format.specs.Framing.{known, second};

use format::Framed;

// The first bad character of the second unit.
fn known_second(cs: [u8; 12], next: Framed) -> Framed
    ensures { result ≡ known (λ i. get_or cs i 0) 4 next }
{
    if cs[4] >= 64 {
        return framing_first::strange(cs[4], 4);
    }
    if cs[5] >= 64 {
        return framing_first::strange(cs[5], 5);
    }
    if cs[6] >= 64 {
        return framing_first::strange(cs[6], 6);
    }
    if cs[7] >= 64 {
        return framing_first::strange(cs[7], 7);
    }
    next
}

// 4, and the same.
pub fn seconded(cs: [u8; 12], len: usize, next: Framed) -> Framed
    ensures { result ≡ second (λ i. get_or cs i 0) len next }
{
    if len < 2 {
        return Framed::Unframed {
            number: 4,
            place: 0,
        };
    }
    known_second(cs, next)
}
