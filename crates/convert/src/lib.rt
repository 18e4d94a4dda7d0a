// Conversion of whole streams between text and binary, into a lent buffer.
#![tactic(auto)]

ghost use Rattle.std.specs.Prelude.{◌≡◌, length};
ghost use Rattle.format.specs.Conversion.{text_to_binary, binary_left, binary_to_text, text_left};

use format::{BinaryOffset, Refusal, TextOffset};

// Refusals in the order 1, 2, 5 or 19, 3; a refused call writes nothing, and bytes behind the answer stay.
pub fn text_to_binary(src: &[u8], dst: &mut [u8]) -> Result<BinaryOffset, Refusal<TextOffset>>
    ensures value { result ≡ text_to_binary src.now (length dst.old) }
    ensures dst_after { dst.new ≡ binary_left result src.now dst.old }
{
    let refused = convert_order::length_refusal(src.len());
    if 0 < refused {
        return Err(Refusal {
            number: refused,
            place: TextOffset(0),
        });
    }
    let bad = convert_pack::to_binary(src, dst);
    convert_order::told(src, bad, dst.len())
}

// Refusals in the order 1, 2, 3; a refused call writes nothing, and bytes behind the answer stay.
pub fn binary_to_text(src: &[u8], dst: &mut [u8]) -> Result<TextOffset, Refusal<BinaryOffset>>
    ensures value { result ≡ binary_to_text src.now (length dst.old) }
    ensures dst_after { dst.new ≡ text_left result src.now dst.old }
{
    let n = src.len();
    match offsets::in_text(BinaryOffset(n)) {
        None => Err(Refusal {
            number: 1,
            place: BinaryOffset(0),
        }),
        Some(size) => {
            if 0 < n % 3 {
                return Err(Refusal {
                    number: 2,
                    place: BinaryOffset(0),
                });
            }
            if dst.len() < size.0 {
                return Err(Refusal {
                    number: 3,
                    place: BinaryOffset(0),
                });
            }
            convert_unpack::to_text(src, dst);
            Ok(size)
        }
    }
}
