// What a call that writes a group answered, as C is told it: a number, 0 for written, and behind `answer` the group's size or the place.
// Nothing is decided here.
#![tactic(auto)]

ghost use Rattle.std.specs.Prelude.{◌≡◌};
ghost use Rattle.groups.specs.Numbers.{grouped_number, grouped_value};

use format::Refusal;

pub fn told(outcome: Result<usize, Refusal<usize>>, answer: &mut usize) -> u8
    ensures value { result ≡ grouped_number outcome }
    ensures answer_after { answer.new ≡ grouped_value outcome }
{
    match outcome {
        Ok(size) => {
            *answer = size;
            0
        }
        Err(Refusal { number, place }) => {
            *answer = place;
            number
        }
    }
}
