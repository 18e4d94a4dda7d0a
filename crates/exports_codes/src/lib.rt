// A code and a primitive as numbers for C. Nothing is decided here.
#![tactic(auto)]

ghost use Rattle.std.specs.Prelude.{◌≡◌};
ghost use Rattle.exports_values.specs.Answers.{chars_of, letter_of, code_from, info_of, value_size};

use exports_values::INFO;
use format::{Code, Primitive};

#[tactic(auto, unfolding(exports_values::specs::Answers::chars_of))]
fn chars_of(code: Code) -> usize
    ensures { result ≡ chars_of code }
{
    match code {
        Code::Fixed { chars, letter: _ } => usize::from(chars),
        Code::Small { letter: _ } => 5,
        Code::Large { letter: _ } => 6,
    }
}

#[tactic(auto, unfolding(exports_values::specs::Answers::letter_of))]
fn letter_of(code: Code) -> usize
    ensures { result ≡ letter_of code }
{
    match code {
        Code::Fixed { chars: _, letter } => usize::from(letter),
        Code::Small { letter } => usize::from(letter),
        Code::Large { letter } => usize::from(letter),
    }
}

#[tactic(auto, unfolding(exports_values::specs::Answers::info_of))]
pub fn info_of(p: Primitive) -> [usize; INFO]
    ensures { result ≡ info_of p }
{
    let code = p.code;
    let chars = chars_of(code);
    let letter = letter_of(code);
    [chars, letter, p.size, p.start.0, p.raw, p.tags, p.text]
}

// The length of its value, a text's characters or raw bytes.
#[tactic(auto, unfolding(exports_values::specs::Answers::value_size))]
pub fn value_size(p: Primitive) -> usize
    ensures { result ≡ value_size p }
{
    if p.text == 0 { p.raw } else { p.text }
}

#[tactic(auto, unfolding(exports_values::specs::Answers::code_from))]
pub fn code_from(chars: u8, letter: u8) -> Code
    ensures { result ≡ code_from chars letter }
{
    if chars == 5 {
        return Code::Small { letter };
    }
    if chars == 6 {
        return Code::Large { letter };
    }
    Code::Fixed { chars, letter }
}
