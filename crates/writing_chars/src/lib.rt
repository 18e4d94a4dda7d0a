// 5 or 19, and 16, of a text that is to be written: its first character outside the alphabet, and an `A` in front.
#![tactic(auto)]

ghost use Rattle.std.specs.Prelude.{◌≡◌};
ghost use Rattle.format.specs.Units.{text_sextets};
ghost use Rattle.format.specs.Texts.{fills};
ghost use Rattle.writing_refusal.specs.Refusals.{text_refusal};

use format::Refusal;

// A text's first character is `A`, which a reader could take for its fill.
fn begins_filled(chars: &[u8]) -> bool
    ensures { result ≡ fills 1 (text_sextets chars.now) }
{
    if chars.len() == 0 {
        return false;
    }
    alphabet::sextet(chars[0]) == 0
}

pub fn text_refusal(chars: &[u8]) -> Option<Refusal<usize>>
    ensures { result ≡ text_refusal chars.now }
{
    let at = alphabet_search::first_stranger(chars);
    if at < chars.len() {
        let number = alphabet_numbers::number_at(chars, at);
        return Some(Refusal { number, place: at });
    }
    if begins_filled(chars) {
        return Some(Refusal {
            number: 16,
            place: 0,
        });
    }
    None
}
