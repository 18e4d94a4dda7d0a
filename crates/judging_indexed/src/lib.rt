// What the header and first sextets of an indexed item decide: 8 and 15. The sextets are the item's own, 0 past its end.
#![tactic(auto)]

ghost use Rattle.std.specs.Prelude.{◌≡◌, ◌≤◌, eqb, take, drop};
ghost use Rattle.base.specs.Digits.{number_of};
ghost use Rattle.format.specs.Registry.{index_chars};
ghost use Rattle.format.specs.Values.{ondex_of};
ghost use Rattle.format.specs.Judging.{ondex_right};
ghost use Rattle.judging_indexed.specs.Checks.{indexed_checks};

use format::{IndexRow, Verdict};

// Whether so many digits from a sextet on are zero.
fn digits_zero(cs: [u8; 12], from: usize, count: usize) -> bool
    requires { (from ≤ 510) × (count ≤ 255) }
    ensures { result ≡ eqb (number_of 64 (take count (drop from cs))) 0 }
{
    for i in 0..count {
        if judging_bits::sextet_at(cs, from + i) != 0 {
            return false;
        }
    }
    true
}

// The ondex stands behind code and index; a "current only" code has none but 0.
fn ondex_right(c: IndexRow, cs: [u8; 12]) -> bool
    ensures { result ≡ ondex_right c (ondex_of c cs) }
{
    if c.current == 0 {
        return true;
    }
    let from = usize::from(c.chars) + usize::from(c.index);
    digits_zero(cs, from, usize::from(c.ondex))
}

// The characters of code, index and ondex.
fn index_chars(c: IndexRow) -> usize
    ensures { result ≡ index_chars c }
{
    usize::from(c.chars) + usize::from(c.index) + usize::from(c.ondex)
}

pub fn indexed_checks(c: IndexRow, cs: [u8; 12]) -> Verdict
    ensures { result ≡ indexed_checks c cs }
{
    let i = index_chars(c);
    if !judging_bits::zero_bits(cs, i, u32::from(c.zeros)) {
        return Verdict::Refused {
            number: 8,
            place: 0,
        };
    }
    if !ondex_right(c, cs) {
        return Verdict::Refused {
            number: 15,
            place: 0,
        };
    }
    Verdict::Accepted
}
