// Writing a group: the answer first, by its order and what a walk of the body as the group's contents gives, and then, if it is not a refusal,
// the group put. What stands behind it stays, and a refused call leaves the buffer as it was.
#![tactic(auto)]

ghost use Rattle.std.specs.Prelude.{◌≡◌};
ghost use Rattle.format.specs.Units.{domain};
ghost use Rattle.format.specs.declared.Form.TheVariants.{Text, Binary};
ghost use Rattle.groups.specs.Grouping.{body_walk, grouped, group_left, text_grouped, binary_grouped};

use format::{BinaryOffset, Form, Refusal, TextOffset};
use groups_order::Before;
use instalments::Pause;

// ---- the answer: the buffer is only looked at

// No walk yields more items than there are units, so that the budget is never used up.
fn walk_body(form: Form, letter: u8, body: &[u8]) -> Pause<usize>
    ensures { result ≡ body_walk (domain form) letter body.now }
{
    let n = report_units::units(form, body.len());
    let w = groups_order::within(letter, n);
    let walked = instalments_walk::walk_on(w, form, body, n + 1);
    walked.pause
}

// letter: a character; len: the length of the body, which lies at the buffer's start. Size and place count the stream's elements.
pub fn answer(form: Form, letter: u8, len: usize, buf: &[u8]) -> Result<usize, Refusal<usize>>
    ensures { result ≡ grouped form letter len buf.now }
{
    match groups_order::before_walk(form, letter, len, buf.len()) {
        Before::Refused(number) => Err(Refusal { number, place: 0 }),
        Before::Contents { letter: l, size } => {
            let pause = walk_body(form, l, &buf[..len]);
            groups_order::room_for(pause, size, buf.len())
        }
    }
}

// ---- the call

// letter: a character; len: the length of the body, which lies at the buffer's start.
pub fn group(form: Form, letter: u8, len: usize, buf: &mut [u8]) -> Result<usize, Refusal<usize>>
    ensures value { result ≡ grouped form letter len buf.old }
    ensures buf_after { buf.new ≡ group_left (grouped form letter len buf.old) form letter len buf.old }
{
    let told = answer(form, letter, len, buf);
    match told {
        Ok(_) => {
            groups_put::put_group(form, alphabet::sextet(letter), len, buf);
            told
        }
        Err(_) => told,
    }
}

// ---- in a form's own offsets

pub fn group_text(letter: u8, len: usize, buf: &mut [u8]) -> Result<TextOffset, Refusal<TextOffset>>
    ensures value { result ≡ text_grouped (grouped Text letter len buf.old) }
    ensures buf_after { buf.new ≡ group_left (grouped Text letter len buf.old) Text letter len buf.old }
{
    match group(Form::Text, letter, len, buf) {
        Ok(size) => Ok(TextOffset(size)),
        Err(Refusal { number, place }) => {
            let at = TextOffset(place);
            Err(Refusal { number, place: at })
        }
    }
}

pub fn group_binary(
    letter: u8,
    len: usize,
    buf: &mut [u8],
) -> Result<BinaryOffset, Refusal<BinaryOffset>>
    ensures value { result ≡ binary_grouped (grouped Binary letter len buf.old) }
    ensures buf_after { buf.new ≡ group_left (grouped Binary letter len buf.old) Binary letter len buf.old }
{
    match group(Form::Binary, letter, len, buf) {
        Ok(size) => Ok(BinaryOffset(size)),
        Err(Refusal { number, place }) => {
            let at = BinaryOffset(place);
            Err(Refusal { number, place: at })
        }
    }
}
