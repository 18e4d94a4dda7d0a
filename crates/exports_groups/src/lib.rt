// Writing a group for C: a number, 0 for written, and behind `answer` the group's size or the place. Nothing is decided here.
#![tactic(auto)]

ghost use Rattle.std.specs.Prelude.{◌≡◌};
ghost use Rattle.format.specs.declared.Form.TheVariants.{Text, Binary};
ghost use Rattle.groups.specs.Grouping.{grouped, group_left};
ghost use Rattle.groups.specs.Numbers.{grouped_number, grouped_value};

use format::Form;

// letter: a character; len: the length of the body, which lies at the buffer's start.
fn group(form: Form, letter: u8, len: usize, buf: &mut [u8], answer: &mut usize) -> u8
    ensures value { result ≡ grouped_number (grouped form letter len buf.old) }
    ensures answer_after { answer.new ≡ grouped_value (grouped form letter len buf.old) }
    ensures buf_after { buf.new ≡ group_left (grouped form letter len buf.old) form letter len buf.old }
{
    let outcome = groups_writing::group(form, letter, len, buf);
    exports_grouped::told(outcome, answer)
}

pub fn group_text(letter: u8, len: usize, buf: &mut [u8], answer: &mut usize) -> u8
    ensures value { result ≡ grouped_number (grouped Text letter len buf.old) }
    ensures answer_after { answer.new ≡ grouped_value (grouped Text letter len buf.old) }
    ensures buf_after { buf.new ≡ group_left (grouped Text letter len buf.old) Text letter len buf.old }
{
    group(Form::Text, letter, len, buf, answer)
}

pub fn group_binary(letter: u8, len: usize, buf: &mut [u8], answer: &mut usize) -> u8
    ensures value { result ≡ grouped_number (grouped Binary letter len buf.old) }
    ensures answer_after { answer.new ≡ grouped_value (grouped Binary letter len buf.old) }
    ensures buf_after { buf.new ≡ group_left (grouped Binary letter len buf.old) Binary letter len buf.old }
{
    group(Form::Binary, letter, len, buf, answer)
}
