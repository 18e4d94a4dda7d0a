// Accepted items of one size that follow one another and begin alike, of either form: each is looked at and its row stored in one loop,
// as far as there is room. Positions count elements, which spares a multiplication a turn.
#![tactic(auto)]

ghost use Rattle.std.specs.Prelude.{◌≡◌, true, [], ◌∷◌, ◌++◌, ◌+◌, ◌*◌, ◌≤◌, ◌<◌, length, get_or};
ghost use Rattle.base.specs.Pick.{pick};
ghost use Rattle.std.proofs.lemmas.List.Edits.{sets};
ghost use Rattle.format.specs.Report.{be4, row_bytes, concat};
ghost use Rattle.filling.specs.Stores.{run_of};
ghost use Rattle.report_alike.specs.Alike.{is_alike, Alike, Roomy};

use format::Form;

// The value of a character by a table.
fn value(values: &[u8; 256], s: &[u8], at: usize) -> usize
    requires { at < length s.now }
    ensures { result ≡ get_or values.now (get_or s.now at 0) 0 }
{
    usize::from(values[usize::from(s[at])])
}

// The same first element, and in a text a second one whose value is below a limit.
#[tactic(auto, unfolding(crate::specs::Alike::is_alike))]
fn is_alike(form: Form, values: &[u8; 256], s: &[u8], x: u8, limit: usize, at: usize) -> bool
    requires { at + 1 < length s.now }
    ensures { result ≡ is_alike form values.now s.now x limit at }
{
    if s[at] != x {
        return false;
    }
    match form {
        Form::Text => value(values, s, at + 1) < limit,
        Form::Binary => true,
    }
}

// The row of an accepted item. It is stored in two parts, each where it has room, so that the compiler joins the bytes of the offset to
// one.
fn store_row(out: &mut [u8], at: usize, offset: usize, size: usize)
    requires { at + 9 ≤ length out.old }
    ensures { out.new ≡ sets out.old at (be4 offset ++ (be4 size ++ (0 ∷ []))) }
{
    report_rows::put_number(out, at, offset);
    report_rows::put_told(out, at + 4, size, 0);
}

// The row of the item at an element, if it begins so.
fn store_if(
    form: Form,
    values: &[u8; 256],
    s: &[u8],
    x: u8,
    limit: usize,
    size: usize,
    p: usize,
    out: &mut [u8],
    at: usize,
) -> bool
    requires { (p + 1 < length s.now) × (at + 9 ≤ length out.old) }
    ensures { (result ≡ is_alike form values.now s.now x limit p) × (out.new ≡ pick result (sets out.old at (be4 p ++ (be4 size ++ (0 ∷ [])))) out.old) }
{
    if is_alike(form, values, s, x, limit, p) {
        store_row(out, at, p, size);
        return true;
    }
    false
}

// Their rows, for which there is room.
fn store_alike(
    form: Form,
    values: &[u8; 256],
    s: &[u8],
    x: u8,
    limit: usize,
    size: usize,
    from: usize,
    end: usize,
    out: &mut [u8],
    at: usize,
) -> usize
    requires { (1 < size) × (size ≤ 4194304) × (from ≤ end) × (end ≤ length s.now) × Roomy from size end at (length out.old) }
    ensures { Alike form values.now s.now x limit size from end result × (out.new ≡ sets out.old at (concat row_bytes (run_of from size result))) }
{
    let mut p = from;
    let mut r = 0;
    while p + size <= end {
        if !store_if(form, values, s, x, limit, size, p, out, at + 9 * r) {
            return r;
        }
        p = p + size;
        r = r + 1;
    }
    r
}

// As many of them as there is room for.
fn store_most(
    form: Form,
    values: &[u8; 256],
    s: &[u8],
    x: u8,
    limit: usize,
    size: usize,
    from: usize,
    end: usize,
    out: &mut [u8],
    at: usize,
) -> usize
    requires { (1 < size) × (size ≤ 4194304) × (from ≤ end) × (end ≤ length s.now) × (at ≤ length out.old) }
    ensures { Alike form values.now s.now x limit size from end result × (out.new ≡ sets out.old at (concat row_bytes (run_of from size result))) }
{
    let most = ((out.len() - at) / 9).min(4194304);
    let room = (end - from).min(most * size);
    store_alike(form, values, s, x, limit, size, from, from + room, out, at)
}

// Whether items of so many elements may stand between two elements of a stream, and their rows in a buffer from a byte on.
fn is_run(size: usize, from: usize, end: usize, len: usize, room: usize, at: usize) -> bool
    ensures { result ≡ true → (1 < size) × (size ≤ 4194304) × (from ≤ end) × (end ≤ len) × (at ≤ room) }
{
    if size < 2 {
        return false;
    }
    if 4194304 < size {
        return false;
    }
    if len < end {
        return false;
    }
    if end < from {
        return false;
    }
    if room < at {
        return false;
    }
    true
}

// The rows of items of so many elements from an element on, as far as they begin alike, end in front of another element and have room:
// how many they are.
pub fn put_alike(
    form: Form,
    values: &[u8; 256],
    s: &[u8],
    x: u8,
    limit: usize,
    size: usize,
    from: usize,
    end: usize,
    out: &mut [u8],
    at: usize,
) -> usize
    ensures { Alike form values.now s.now x limit size from end result × (out.new ≡ sets out.old at (concat row_bytes (run_of from size result))) }
{
    if is_run(size, from, end, s.len(), out.len(), at) {
        return store_most(form, values, s, x, limit, size, from, end, out, at);
    }
    0
}
