// How many items of one size follow the one at a unit and begin like it, of either form: by the first element, or by the whole first
// unit. Positions count units, but in the loop elements, which spares a multiplication a turn.
#![tactic(auto)]

ghost use Rattle.std.specs.Prelude.{◌≡◌, ◌+◌, ◌-◌, ◌*◌, ◌≤◌, ◌<◌, length};
ghost use Rattle.format.specs.Units.{domain};
ghost use Rattle.runs.specs.Runs.{Run};
ghost use Rattle.report_followers.specs.Followers.{same, same_two, same_unit, is_like, like_by, like_in, Span, Elements, Followers};

use format::Form;

fn same(s: &[u8], p: usize, q: usize) -> bool
    requires { (p < length s.now) × (q < length s.now) }
    ensures { result ≡ same s.now p q }
{
    s[p] == s[q]
}

fn same_two(s: &[u8], p: usize, q: usize) -> bool
    requires { (p + 1 < length s.now) × (q + 1 < length s.now) }
    ensures { result ≡ same_two s.now p q }
{
    if same(s, p, q) {
        return same(s, p + 1, q + 1);
    }
    false
}

// Whether the units at two elements are the same.
fn same_unit(form: Form, s: &[u8], p: usize, q: usize) -> bool
    requires { (p + (domain form).unit ≤ length s.now) × (q + (domain form).unit ≤ length s.now) }
    ensures { result ≡ same_unit form s.now p q }
{
    match form {
        Form::Text => {
            if same_two(s, p, q) {
                return same_two(s, p + 2, q + 2);
            }
            false
        }
        Form::Binary => {
            if same_two(s, p, q) {
                return same(s, p + 2, q + 2);
            }
            false
        }
    }
}

// By the first element, or by the whole first unit.
fn is_like(form: Form, s: &[u8], whole: bool, p: usize, q: usize) -> bool
    requires { (p + (domain form).unit ≤ length s.now) × (q + (domain form).unit ≤ length s.now) }
    ensures { result ≡ is_like form s.now whole p q }
{
    if whole {
        return same_unit(form, s, p, q);
    }
    same(s, p, q)
}

// How many items of so many elements follow the one at an element and begin like it, up to another element.
fn run(form: Form, s: &[u8], whole: bool, at: usize, size: usize, end: usize) -> usize
    requires { Elements form s.now at size end }
    ensures { Run (like_by form s.now whole at size) size end (at + size) result }
{
    let mut p = at + size;
    let mut r = 0;
    while p + size <= end {
        if !is_like(form, s, whole, at, p) {
            return r;
        }
        p = p + size;
        r = r + 1;
    }
    r
}

// The same in units.
fn run_units(form: Form, s: &[u8], whole: bool, at: usize, size: usize, end: usize) -> usize
    requires { Span form s.now at size end }
    ensures { Run (like_in form s.now whole at size) size end (at + size) result }
{
    let u = report_units::unit(form);
    run(form, s, whole, u * at, u * size, u * end)
}

// And as far as characters are known, of any units.
pub fn followers(form: Form, s: &[u8], whole: bool, clean: usize, at: usize, size: usize) -> usize
    ensures { Followers form s.now whole clean at size result }
{
    let end = clean.min(report_units::units(form, s.len()));
    if size == 0 {
        return 0;
    }
    if end <= at {
        return 0;
    }
    if end - at < size {
        return 0;
    }
    run_units(form, s, whole, at, size, end)
}
