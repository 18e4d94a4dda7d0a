// The answer to a text that is converted to binary, in the order of its refusals: 1, 2, 5 or 19, 3. What its length is refused with is
// asked before a unit is converted, the rest when they are. Nothing is written here.
#![tactic(auto)]

ghost use Rattle.std.specs.Prelude.{◌≡◌, length};
ghost use Rattle.format.specs.Conversion.{text_to_binary, first_stranger};
ghost use Rattle.convert_order.specs.Lengths.{length_refusal};

use format::{BinaryOffset, Refusal, TextOffset};

// 1 or 2 of a text so long, 0 for neither.
pub fn length_refusal(n: usize) -> u8
    ensures { result ≡ length_refusal n }
{
    if 4194304 < n {
        return 1;
    }
    if 0 < n % 4 {
        return 2;
    }
    0
}

// Where the length is not refused: by the first stranger, the length where there is none, and the room for what is written.
pub fn told(src: &[u8], bad: usize, room: usize) -> Result<BinaryOffset, Refusal<TextOffset>>
    ensures { length_refusal (length src.now) ≡ 0 → bad ≡ first_stranger src.now → result ≡ text_to_binary src.now room }
{
    let n = src.len();
    if bad < n {
        let number = alphabet_numbers::number_at(src, bad);
        return Err(Refusal {
            number,
            place: TextOffset(bad),
        });
    }
    let size = offsets::in_binary(TextOffset(n));
    if room < size.0 {
        return Err(Refusal {
            number: 3,
            place: TextOffset(0),
        });
    }
    Ok(size)
}
