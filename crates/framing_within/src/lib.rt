// A sextet of a stream's first three units, cut to an item of so many units: 0 past the item's end.
#![tactic(auto)]

ghost use Rattle.std.specs.Prelude.{◌≡◌, ◌*◌, get_or, take};

pub fn within_sextet(cs: [u8; 12], n: usize, i: usize) -> u8
    ensures { result ≡ get_or (take (4 * n) cs) i 0 }
{
    if i < 12 {
        if i / 4 < n { cs[i] } else { 0 }
    } else {
        0
    }
}
