// What the header and first sextets of a fixed code's item decide: 8 and 10. The sextets are the item's own, 0 past its end.
#![tactic(auto)]

ghost use Rattle.std.specs.Prelude.{◌≡◌};
ghost use Rattle.format.specs.Judging.{prepad_right};
ghost use Rattle.judging_fixed.specs.Checks.{fixed_checks};

use format::{CodeRow, Verdict};

fn prepad_right(cs: [u8; 12], i: usize, prepad: u32) -> bool
    ensures { result ≡ prepad_right cs i prepad }
{
    if prepad == 0 {
        true
    } else {
        judging_bits::sextet_at(cs, i) == 63
    }
}

pub fn fixed_checks(c: CodeRow, cs: [u8; 12]) -> Verdict
    ensures { result ≡ fixed_checks c cs }
{
    let i = usize::from(c.chars);
    let z = judging_header::zeros_of(c);
    if !judging_bits::zero_bits(cs, i, z) {
        return Verdict::Refused {
            number: 8,
            place: 0,
        };
    }
    let prepad = judging_header::prepad_of(c);
    if !prepad_right(cs, i, prepad) {
        return Verdict::Refused {
            number: 10,
            place: 0,
        };
    }
    Verdict::Accepted
}
