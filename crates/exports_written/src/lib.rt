// What a call that writes an item answered, as C and Rust are told it: a number, 0 for accepted, and behind `answer` the length written or
// the place. Nothing is decided here.
#![tactic(auto)]

ghost use Rattle.std.specs.Prelude.{◌≡◌};
ghost use Rattle.exports_values.specs.Answers.{text_written_number, text_written_value, binary_written_number, binary_written_value};

use format::{BinaryOffset, Refusal, TextOffset};

// answer: the length written, or the place.
pub fn text_written(outcome: Result<TextOffset, Refusal<usize>>, answer: &mut usize) -> u8
    ensures value { result ≡ text_written_number outcome }
    ensures answer_after { answer.new ≡ text_written_value outcome }
{
    match outcome {
        Ok(n) => {
            *answer = n.0;
            0
        }
        Err(Refusal { number, place }) => {
            *answer = place;
            number
        }
    }
}

// answer: the length written, or the place.
pub fn binary_written(outcome: Result<BinaryOffset, Refusal<usize>>, answer: &mut usize) -> u8
    ensures value { result ≡ binary_written_number outcome }
    ensures answer_after { answer.new ≡ binary_written_value outcome }
{
    match outcome {
        Ok(bytes) => {
            *answer = bytes.0;
            0
        }
        Err(Refusal { number, place }) => {
            *answer = place;
            number
        }
    }
}
