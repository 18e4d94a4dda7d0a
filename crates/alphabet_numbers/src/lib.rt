// The number that a character outside the alphabet is refused with.
#![tactic(auto)]

ghost use Rattle.std.specs.Prelude.{◌≡◌, get_or};
ghost use Rattle.format.specs.Alphabet.{sextet_of, stranger_number};

// By its mark: 19 for one of the ordinary alphabet, 5 for any other.
pub fn stranger_number(v: u8) -> u8
    ensures { result ≡ stranger_number v }
{
    if v == 65 { 19 } else { 5 }
}

// Of the character at a place, whose entry is read once its place is known.
pub fn number_at(s: &[u8], i: usize) -> u8
    ensures { result ≡ stranger_number (sextet_of (get_or s.now i 0)) }
{
    if i < s.len() {
        return stranger_number(alphabet::sextet(s[i]));
    }
    5
}
