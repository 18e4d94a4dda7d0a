// What the first unit of an indexed item decides, as four sextets: that it is accepted if its characters are known, and how long it is.
// Nothing here asks whether a character is known.
#![tactic(auto)]

ghost use Rattle.std.specs.Prelude.{◌≡◌};
ghost use Rattle.runs_indexed.specs.Indexed.{lettered_of, zeroed_of, indexed_of};

// `A` to `D`, whose pad bits are the third sextet's first four.
#[tactic(auto, unfolding(crate::specs::Indexed::lettered_of))]
fn lettered(c: u8) -> usize
    ensures { result ≡ lettered_of c }
{
    if c < 4 { 22 } else { 0 }
}

// `0A`, and `0B` with an ondex of 0.
#[tactic(auto, unfolding(crate::specs::Indexed::zeroed_of))]
fn zeroed(b: u8, d: u8) -> usize
    ensures { result ≡ zeroed_of b d }
{
    if b == 0 {
        return 39;
    }
    if b == 1 {
        return if d == 0 { 39 } else { 0 };
    }
    0
}

// The size in units of an indexed item with a header of one unit, or 0.
#[tactic(auto, unfolding(crate::specs::Indexed::indexed_of))]
pub fn indexed(a: u8, b: u8, c: u8, d: u8) -> usize
    ensures { result ≡ indexed_of a b c d }
{
    if a < 4 {
        return lettered(c);
    }
    if a == 52 { zeroed(b, d) } else { 0 }
}
