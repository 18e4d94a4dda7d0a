// The index and the ondex of an indexed item, by its first sextets. What is said holds of rows whose digits lie there.
#![tactic(auto)]

ghost use Rattle.std.specs.Prelude.{◌≡◌, ◌≤◌, take, drop};
ghost use Rattle.base.specs.Digits.{number_of};
ghost use Rattle.format.specs.Values.{index_of, ondex_of};
ghost use Rattle.indexed_digits.specs.Placed.{Placed};

use format::IndexRow;

// The number of so many digits from a place of the first sextets on, most significant first. Of more than three nothing is said.
fn number(cs: [u8; 12], from: usize, count: u8) -> usize
    requires { from ≤ 9 }
    ensures { count ≤ 3 → result ≡ number_of 64 (take count (drop from cs)) }
{
    let a = usize::from(cs[from]);
    let b = usize::from(cs[from + 1]);
    let d = usize::from(cs[from + 2]);
    if count == 0 {
        return 0;
    }
    if count == 1 {
        return a;
    }
    if count == 2 {
        return a * 64 + b;
    }
    (a * 64 + b) * 64 + d
}

// Behind the code.
pub fn index_of(c: IndexRow, cs: [u8; 12]) -> usize
    ensures { Placed c → result ≡ index_of c cs }
{
    let from = usize::from(c.chars).min(9);
    number(cs, from, c.index)
}

// Behind the index.
pub fn ondex_of(c: IndexRow, cs: [u8; 12]) -> usize
    ensures { Placed c → result ≡ ondex_of c cs }
{
    let from = (usize::from(c.chars) + usize::from(c.index)).min(9);
    number(cs, from, c.ondex)
}
