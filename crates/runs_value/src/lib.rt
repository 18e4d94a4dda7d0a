// What a small variable value's header and the unit behind it decide, as sextets and a number: that it is accepted if its characters are
// known, and how long it is. Nothing here asks whether a character is known.
#![tactic(auto)]

ghost use Rattle.std.specs.Prelude.{◌≡◌, ◌<◌};
ghost use Rattle.runs_value.specs.Values.{unit_number, is_selector, text_fits, bytes_fit, unit_fits, value_fits, fitting, valued_of};

// A unit as a number.
pub fn number(a: u8, b: u8, c: u8, d: u8) -> usize
    ensures { result ≡ unit_number a b c d }
{
    ((usize::from(a) * 64 + usize::from(b)) * 64 + usize::from(c)) * 64 + usize::from(d)
}

// `4` `5` `6`.
#[tactic(auto, unfolding(crate::specs::Values::is_selector))]
pub fn is_selector(a: u8) -> bool
    ensures { result ≡ is_selector a }
{
    if a < 56 {
        return false;
    }
    a < 59
}

// A text: how many `A` stand in front of it.
#[tactic(auto, unfolding(crate::specs::Values::text_fits))]
fn text_fits(a: u8, v: usize) -> bool
    ensures { result ≡ text_fits a v }
{
    if a == 56 {
        return 4095 < v;
    }
    if a == 57 {
        if v < 4096 {
            return 63 < v;
        }
        return false;
    }
    if v < 64 { 0 < v } else { false }
}

// Another value: its lead bytes are zero.
#[tactic(auto, unfolding(crate::specs::Values::bytes_fit))]
fn bytes_fit(a: u8, v: usize) -> bool
    ensures { result ≡ bytes_fit a v }
{
    if a == 56 {
        return true;
    }
    if a == 57 { v < 65536 } else { v < 256 }
}

#[tactic(auto, unfolding(crate::specs::Values::unit_fits, format::specs::Registry::is_text))]
fn unit_fits(a: u8, t: u8, v: usize) -> bool
    ensures { result ≡ unit_fits a t v }
{
    if t == 0 {
        text_fits(a, v)
    } else {
        bytes_fit(a, v)
    }
}

// An item of so many units; a header alone has no lead byte.
#[tactic(auto, unfolding(crate::specs::Values::value_fits))]
fn value_fits(a: u8, t: u8, size: usize, v: usize) -> bool
    ensures { result ≡ value_fits a t size v }
{
    if 1 < size {
        unit_fits(a, t, v)
    } else {
        a == 56
    }
}

#[tactic(auto, unfolding(crate::specs::Values::fitting))]
fn fitting(a: u8, t: u8, size: usize, v: usize) -> usize
    ensures { result ≡ fitting a t size v }
{
    if value_fits(a, t, size, v) { size } else { 0 }
}

// The size in units of a small variable value with this header, where the unit behind it is a number; else 0.
#[tactic(auto, unfolding(crate::specs::Values::valued_of))]
pub fn valued(v: usize, a: u8, b: u8, c: u8, d: u8) -> usize
    ensures { result ≡ valued_of v a b c d }
{
    if is_selector(a) {
        fitting(a, b, runs::typed(b, c, d), v)
    } else {
        0
    }
}
