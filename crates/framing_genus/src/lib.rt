// Whether a genus/version is `AAACAA`, by its six digits.
#![tactic(auto)]

ghost use Rattle.std.specs.Prelude.{◌≡◌, get_or};
ghost use Rattle.format.specs.Framing.{is_ours};

pub fn is_ours(cs: [u8; 12]) -> bool
    ensures { result ≡ is_ours (λ i. get_or cs i 0) }
{
    let low = registry_extent::number([cs[4], cs[5], cs[6], cs[7]]);
    let high = registry_extent::number([0, 0, cs[2], cs[3]]);
    high * 16777216 + low == 8192
}
