// 5 or 19 behind the header of a text's item: the first character there that is not in the alphabet, and its number.
#![tactic(auto)]

ghost use Rattle.std.specs.Prelude.{◌≡◌};
ghost use Rattle.format.specs.Units.{text_sextets};
ghost use Rattle.format.specs.Judging.{behind};

use format::Verdict;

pub fn behind_text(item: &[u8], h: usize) -> Verdict
    ensures { result ≡ behind h (text_sextets item.now) }
{
    if h <= item.len() / 4 {
        let from = 4 * h;
        let bad = alphabet_search::first_stranger(&item[from..]);
        if bad < item.len() - from {
            let place = from + bad;
            let number = alphabet_numbers::number_at(item, place);
            return Verdict::Refused { number, place };
        }
    }
    Verdict::Accepted
}
