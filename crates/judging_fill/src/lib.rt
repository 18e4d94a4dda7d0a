// 16: whether a text, type `A`, is filled as its length asks, by its first unit. The sextets are the item's own, 0 past its end.
#![tactic(auto)]

ghost use Rattle.std.specs.Prelude.{◌≡◌};
ghost use Rattle.judging_fill.specs.Fill.{filled_right, text_filled};

// Its first unit: none or one `A` in front under lead 0, two under 1, three under 2.
fn filled_right(lead: u8, a: u8, b: u8, c: u8, d: u8) -> bool
    ensures { result ≡ filled_right lead a b c d }
{
    if a != 0 {
        return lead == 0;
    }
    if b != 0 {
        return lead == 0;
    }
    if c != 0 {
        return lead == 1;
    }
    if d != 0 { lead == 2 } else { false }
}

// Type `A` is 0, and the empty text has no unit. Sextets past those that are held read 0.
pub fn text_filled(letter: u8, lead: u8, count: usize, h: usize, cs: [u8; 12]) -> bool
    ensures { result ≡ text_filled letter lead count h cs }
{
    if letter != 0 {
        return true;
    }
    if count == 0 {
        return true;
    }
    if 2 < h {
        return false;
    }
    let i = 4 * h;
    filled_right(lead, cs[i], cs[i + 1], cs[i + 2], cs[i + 3])
}
