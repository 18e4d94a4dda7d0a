// The conditions of 13 (02 f), one by one as `pieces/Calls` has them: whether a state, whoever made it, is fit for pieces of a form. The
// limit, 1, is asked in the same way.
#![tactic(auto)]

ghost use Rattle.std.specs.Prelude.{◌≡◌, ◌+◌, ◌*◌, ltb, leb, eqb};
ghost use Rattle.std.proofs.Math.Bool as Bool;
ghost use Rattle.base.specs.Pick.{pick};
ghost use Rattle.format.specs.Units.{domain};
ghost use Rattle.walk_state.specs.Walking.{all_below};
ghost use Rattle.walk_state.specs.Walking as Walking;
ghost use Rattle.pieces.specs.Headers.{endless};
ghost use Rattle.pieces.specs.Calls.{is_open, most_units, progress_fits, place_fits, is_fit};

use format::Form;
use pieces::{Phase, Pieces, Progress};
use walk_state::Walk;

// The units of the longest stream, of either form, and as many as any header may ask for behind them.
const REACH: usize = 1048576 + 1073741826;

// Both tests, so that each is asked and the answer has one path.
fn both(a: bool, b: bool) -> bool
    ensures { result ≡ pick a b Bool.false }
{
    if a { b } else { false }
}

// ---- the state in whole units

// The end was not told.
fn is_open(phase: Phase) -> bool
    ensures { result ≡ is_open phase }
{
    match phase {
        Phase::Framing => true,
        Phase::Unframed => true,
        Phase::Ended => false,
    }
}

// The walk is fit for a stream as long as any header may ask for.
fn walk_fits(form: Form, w: Walk) -> bool
    ensures { result ≡ Walking.is_fit w (most_units (domain form) + endless) }
{
    let ends = w.ends;
    walk_fit::is_fit(&ends, w.place(), REACH)
}

// Start, items, place and lead bytes, by what was read.
fn counts_fit(p: Progress) -> bool
    ensures { result ≡ pick (leb p.start p.read) (pick (leb p.items p.start) (pick (leb p.place (4 * p.read + 3)) (leb p.lead 2) Bool.false) Bool.false) Bool.false }
{
    let inside = both(p.place / 4 <= p.read, p.lead <= 2);
    let begun = both(p.items <= p.start, inside);
    both(p.start <= p.read, begun)
}

fn progress_fits(form: Form, p: Progress) -> bool
    ensures { result ≡ progress_fits p (most_units (domain form)) }
{
    let phase = p.phase;
    let w = p.walk;
    let open = is_open(phase);
    let rest = both(walk_fits(form, w), counts_fit(p));
    both(open, rest)
}

// ---- what is held

// A place that is not used is 0.
fn place_fits(x: u8, k: usize, count: usize) -> bool
    ensures { result ≡ pick (ltb k count) Bool.true (eqb x 0) }
{
    if k < count { true } else { x == 0 }
}

fn places_fit(held: [u8; 4], count: usize) -> bool
    ensures { result ≡ all_below (place_fits held count) 4 }
{
    let a = place_fits(held[0], 0, count);
    let b = place_fits(held[1], 1, count);
    let c = place_fits(held[2], 2, count);
    let d = place_fits(held[3], 3, count);
    both(d, both(c, both(b, a)))
}

// No more was taken in than the limit.
pub fn taken_fits(form: Form, read: usize, count: usize) -> bool
    ensures { result ≡ leb (read * (domain form).unit + count) (domain form).limit }
{
    let limit = report_units::limit(form);
    if limit < count {
        return false;
    }
    read <= report_units::units(form, limit - count)
}

// Whether the state meets all conditions: else 13.
pub fn is_fit(form: Form, st: Pieces) -> bool
    ensures { result ≡ is_fit (domain form) st }
{
    let p = st.progress;
    let held = st.held;
    let u = report_units::unit(form);
    let within = taken_fits(form, p.read, st.count);
    let places = both(places_fit(held, st.count), within);
    let part = both(st.count < u, places);
    let fits = both(progress_fits(form, p), part);
    both(st.unit == u, fits)
}
