// Units of a stream, of either form: the elements to one, how many whole ones there are, and how long a stream may be.
#![tactic(auto)]

ghost use Rattle.std.specs.Prelude.{◌≡◌, ◌/◌};
ghost use Rattle.format.specs.Units.{domain};

use format::Form;

// No report takes a longer stream, in elements: a text has so many at most, a binary fewer.
pub const LONGEST: usize = 4194304;

// Elements of a stream to a unit.
pub fn unit(form: Form) -> usize
    ensures { result ≡ (domain form).unit }
{
    match form {
        Form::Text => 4,
        Form::Binary => 3,
    }
}

// The whole units of a stream of so many elements.
pub fn units(form: Form, len: usize) -> usize
    ensures { result ≡ len / (domain form).unit }
{
    match form {
        Form::Text => len / 4,
        Form::Binary => len / 3,
    }
}

pub fn limit(form: Form) -> usize
    ensures { result ≡ (domain form).limit }
{
    match form {
        Form::Text => 4194304,
        Form::Binary => 3145728,
    }
}
