// How far the characters of a text item are known in a mixed stream: all bytes in front of `to`, from the present one on, are of the alphabet.
// So each character is looked at once, and a stretch of text items as in a text's own report.
#![tactic(auto)]

ghost use Rattle.std.specs.Prelude.{◌≤◌, length, drop};
ghost use Rattle.format.specs.Units.{domain};
ghost use Rattle.runs.specs.Levels.{Clear};
ghost use Rattle.mixed_known.specs.Known.{Known};

use format::Form;

// The first stranger from a byte on, or the end.
fn first_unknown(s: &[u8], at: usize) -> usize
    requires { at ≤ length s.now }
    ensures { Known s.now at result }
{
    at + alphabet_search::first_stranger(&s[at..])
}

// How far they are known from a byte on, where they are known up to another. Only a text item is looked at.
pub fn known(s: &[u8], at: usize, to: usize) -> usize
    ensures { Known s.now at to → Known s.now at result }
{
    if at < to {
        return to;
    }
    if s.len() <= at {
        return to;
    }
    if s[at] != 45 {
        return to;
    }
    first_unknown(s, at)
}

// The units that are known from a byte on, of an item of a form: all of a binary.
pub fn clean(form: Form, s: &[u8], at: usize, to: usize) -> usize
    ensures { Known s.now at to → Clear ((domain form).sextets (drop at s.now)) 0 result }
{
    match form {
        Form::Text => to.saturating_sub(at) / 4,
        Form::Binary => s.len() / 3,
    }
}
