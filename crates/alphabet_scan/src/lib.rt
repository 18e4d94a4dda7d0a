// Whether a character is of the alphabet, without a table, so that many are asked at once.
#![tactic(auto)]

ghost use Rattle.std.specs.Prelude.{◌≡◌, ◌==◌, nat_lt};
ghost use Rattle.format.specs.Alphabet.{sextet_of};

// 0 exactly for a character of the alphabet: how far it is from the letters, the digits, `-` or `_`, whichever is nearest. Without
// the bit of 32 a small letter is a capital. Saturated differences and least values are vector operations on bytes.
pub fn stranger(c: u8) -> u8
    ensures { (result == 0) ≡ nat_lt (sextet_of c) 64 }
{
    let letter = (c & 223).wrapping_sub(65).saturating_sub(25);
    let digit = c.wrapping_sub(48).saturating_sub(9);
    letter.min(digit).min((c ^ 45).min(c ^ 95))
}
