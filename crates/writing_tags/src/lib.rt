// 5 or 19 of the tag characters that are to be written: the first that is outside the alphabet.
#![tactic(auto)]

ghost use Rattle.std.specs.Prelude.{◌≡◌, take};
ghost use Rattle.format.specs.Conversion.{first_stranger};
ghost use Rattle.writing_refusal.specs.Refusals.{tag_refusal};

use format::Refusal;

// The first of so many tag characters that is outside the alphabet. There are eleven.
fn tag_stranger(tag: [u8; 11], tags: usize) -> usize
    ensures { result ≡ first_stranger (take tags tag) }
{
    if 11 < tags {
        return alphabet_search::first_stranger(&tag);
    }
    alphabet_search::first_stranger(&tag[..tags])
}

pub fn tag_refusal(tag: [u8; 11], tags: usize) -> Option<Refusal<usize>>
    ensures { result ≡ tag_refusal tag tags }
{
    let bad = tag_stranger(tag, tags);
    if bad < tags {
        let number = alphabet_numbers::number_at(&tag, bad);
        return Some(Refusal { number, place: bad });
    }
    None
}
