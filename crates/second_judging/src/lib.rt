// The second judge's verdict on a primitive, on an indexed item and on a group's header (02 m), to be read by eye: in the papers' order and by their names. It shares
// with the first engine the tables of alphabet and registry with their look-ups; no more. `t` is the item's own text, whose value begins at
// `from`, behind a header of whole units; `|` and `&` ask both sides.
#![tactic(auto)]

ghost use Rattle.std.specs.Prelude.{◌≡◌, ℕ, ltb};
ghost use Rattle.format.specs.Units.{text_sextets};
ghost use Rattle.format.specs.Judging.{and_then, unless, is_shortest, zero_bits, max_depth};
ghost use Rattle.second_judging.specs.Kinds.{Behind, fixed_of, variable_of, indexed_of};

use format::{CodeRow, IndexRow, Verdict};
use registry_extent::number;
use second_characters::{at, first, strangers};

// ---- the tests

// The first refusal stands: a verdict, and where that accepts, a number unless a test passes.
fn unless(v: Verdict, number: u8, right: bool) -> Verdict
    ensures { result ≡ and_then v (unless number right) }
{
    if let Verdict::Accepted = v {
        if !right {
            return Verdict::Refused { number, place: 0 };
        }
    }
    v
}

// 8: the first z bits, of 18 at most, from a place on are zero, as all is past the end.
fn zero_bits(t: &[u8], i: usize, z: usize) -> bool
    ensures { result ≡ zero_bits (text_sextets t.now) i z }
{
    let others = 18usize.saturating_sub(z);
    t.len() <= i || number([0, at(t, i), at(t, i + 1), at(t, i + 2)]) >> others == 0
}

// Whether a group that stands within so many may be entered: 11, 18. A large header counts 4,096 units or more.
pub fn entered(depth: usize, head: usize, count: usize) -> Verdict
    ensures { result ≡ and_then (unless 11 (ltb depth max_depth)) (unless 18 (is_shortest head count)) }
{
    let v = unless(Verdict::Accepted, 11, depth < 64);
    unless(v, 18, (head == 1) | (4096 <= count))
}

// ---- by kind, 5 or 19 being asked behind the header

// A fixed code's: 5 or 19, 8, 10.
pub fn fixed(c: CodeRow, from: usize, t: &[u8]) -> Verdict
    ensures { (h : ℕ) → Behind h from t.now → result ≡ fixed_of c h (text_sextets t.now) }
{
    let code = usize::from(c.chars);
    let v = strangers(t, from, t.len());
    let v = unless(v, 8, zero_bits(t, code, registry_reading::zero_bits(c)));
    let begun = (registry_reading::prepad(c) == 0) | (at(t, code) == 63);
    unless(v, 10, begun)
}

// A variable type's: 5 or 19, 18, 9, 8, 16. In front of a text `A` stands once more than its lead says; where that is 0, once or not at all.
pub fn variable(letter: u8, lead: u8, count: usize, from: usize, t: &[u8]) -> Verdict
    ensures { (h : ℕ) → Behind h from t.now → result ≡ variable_of letter lead count h (text_sextets t.now) }
{
    let fill = first(t, from, t.len(), 1) - from;
    let v = strangers(t, from, t.len());
    let v = unless(v, 18, (from == 4) | (4096 <= count));
    let v = unless(v, 9, (lead == 0) | (0 < count));
    let v = unless(v, 8, zero_bits(t, from, 8 * usize::from(lead)));
    let filled = (letter != 0) | (fill == usize::from(lead) + 1) | ((fill == 0) & (lead == 0));
    unless(v, 16, filled)
}

// An indexed item's: 5 or 19, 8, 15.
pub fn indexed(c: IndexRow, from: usize, t: &[u8]) -> Verdict
    ensures { (h : ℕ) → Behind h from t.now → result ≡ indexed_of c h (text_sextets t.now) }
{
    let ondex = usize::from(c.chars) + usize::from(c.index);
    let value = ondex + usize::from(c.ondex);
    let v = strangers(t, from, t.len());
    let v = unless(v, 8, zero_bits(t, value, usize::from(c.zeros)));
    let current = (c.current == 0) | (first(t, ondex, value, 1) == value);
    unless(v, 15, current)
}
