// What a conversion or a report answered, as C and Rust are told it: a number, 0 for accepted, and behind `answer` the length written or the
// place. Nothing is decided here.
#![tactic(auto)]

ghost use Rattle.std.specs.Prelude.{◌≡◌};
ghost use Rattle.format.specs.Conversion.{to_binary_number, to_binary_value, to_text_number, to_text_value};
ghost use Rattle.format.specs.Report.{report_number, report_value};

use format::{BinaryOffset, Refusal, TextOffset};

// answer: the length of the binary, or the place in the text.
pub fn to_binary(outcome: Result<BinaryOffset, Refusal<TextOffset>>, answer: &mut usize) -> u8
    ensures value { result ≡ to_binary_number outcome }
    ensures answer_after { answer.new ≡ to_binary_value outcome }
{
    match outcome {
        Ok(n) => {
            *answer = n.0;
            0
        }
        Err(
            Refusal {
                number: refusal,
                place,
            },
        ) => {
            *answer = place.0;
            refusal
        }
    }
}

// answer: the length of the text, or the place in the binary.
pub fn to_text(outcome: Result<TextOffset, Refusal<BinaryOffset>>, answer: &mut usize) -> u8
    ensures value { result ≡ to_text_number outcome }
    ensures answer_after { answer.new ≡ to_text_value outcome }
{
    match outcome {
        Ok(n) => {
            *answer = n.0;
            0
        }
        Err(
            Refusal {
                number,
                place: byte,
            },
        ) => {
            *answer = byte.0;
            number
        }
    }
}

// answer: the length of the report, or 0 for 1 and 3.
pub fn reported(outcome: Result<usize, Refusal<usize>>, answer: &mut usize) -> u8
    ensures value { result ≡ report_number outcome }
    ensures answer_after { answer.new ≡ report_value outcome }
{
    match outcome {
        Ok(length) => {
            *answer = length;
            0
        }
        Err(Refusal { number, place }) => {
            *answer = place;
            number
        }
    }
}
