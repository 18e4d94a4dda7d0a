// The search for the first character outside the alphabet: blocks of 64 while they are clean, then character by character.
#![tactic(auto)]

ghost use Rattle.std.specs.Prelude.{◌≡◌, ◌+◌, ◌≤◌, eqb, leb, length, drop};
ghost use Rattle.format.specs.Conversion.{first_stranger};

// 0 exactly if the 64 characters from a place on are all of the alphabet. There is no early way out, so that it is vectorised.
fn strangers(s: &[u8], at: usize) -> u8
    requires { at + 64 ≤ length s.now }
    ensures { eqb result 0 ≡ leb 64 (first_stranger (drop at s.now)) }
{
    let mut bad: u8 = 0;
    for j in 0..64 {
        bad |= alphabet_scan::stranger(s[at + j]);
    }
    bad
}

// The place of the first character outside the alphabet from a place on, or the length, character by character.
fn stranger_from(s: &[u8], from: usize) -> usize
    requires { from ≤ length s.now }
    ensures { result ≡ from + first_stranger (drop from s.now) }
{
    let values = alphabet::sextets();
    for i in from..s.len() {
        if 63 < alphabet::value(&values, s[i]) {
            return i;
        }
    }
    s.len()
}

// The same from the start: whole blocks while they are clean, then character by character.
pub fn first_stranger(s: &[u8]) -> usize
    ensures { result ≡ first_stranger s.now }
{
    let mut i = 0;
    while i < s.len() {
        if s.len() - i < 64 {
            break;
        }
        if strangers(s, i) != 0 {
            break;
        }
        i += 64;
    }
    stranger_from(s, i)
}
