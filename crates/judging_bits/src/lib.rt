// Bits among an item's first sextets: a sextet, and whether so many bits from one on are zero. The sextets are the item's own, 0 past
// its end and past those that are held.
#![tactic(auto)]

ghost use Rattle.std.specs.Prelude.{◌≡◌, get_or};
ghost use Rattle.format.specs.Judging.{zero_bits};

pub fn sextet_at(cs: [u8; 12], i: usize) -> u8
    ensures { result ≡ get_or cs i 0 }
{
    if i < 12 { cs[i] } else { 0 }
}

pub fn zero_bits(cs: [u8; 12], i: usize, z: u32) -> bool
    ensures { result ≡ zero_bits cs i z }
{
    if 12 <= i {
        return true;
    }
    let a = u32::from(sextet_at(cs, i));
    let b = u32::from(sextet_at(cs, i + 1));
    let c = u32::from(sextet_at(cs, i + 2));
    let k = 18u32.saturating_sub(z);
    ((a * 64 + b) * 64 + c) >> k == 0
}
