// How far a stream reaches: whether it passes its form's limit, its whole units and what stands behind them; and whether the next item of a
// state can be looked for in it, which is asked of a state that is known to fit.
#![tactic(auto)]

ghost use Rattle.std.specs.Prelude.{◌≡◌, ◌≤◌, length};
ghost use Rattle.format.specs.Judging.{max_depth};
ghost use Rattle.walk_state.specs.Lent.{walk_at};
ghost use Rattle.walk_extent.specs.Extent.{Measured, is_near};

use format::Form;
use judging::MAX_DEPTH;
use walk_state::Place;

// The longest streams: 1.
const MAX_CHARACTERS: usize = 4194304;

const MAX_BYTES: usize = 3145728;

// What a stream's length says: whether it passes the form's limit, its whole units, and whether elements stand behind them.
#[derive(Clone, Copy)]
pub struct Extent {
    pub over: bool,
    pub units: usize,
    pub tail: bool,
}

pub fn measured(form: Form, s: &[u8]) -> Extent
    ensures { Measured form s.now result }
{
    match form {
        Form::Text => Extent {
            over: MAX_CHARACTERS < s.len(),
            units: s.len() / 4,
            tail: 0 < s.len() % 4,
        },
        Form::Binary => Extent {
            over: MAX_BYTES < s.len(),
            units: s.len() / 3,
            tail: 0 < s.len() % 3,
        },
    }
}

// Whether the next item can be looked for, which a state that fits the stream allows.
pub fn is_near(slots: &[usize], p: Place, e: Extent) -> bool
    ensures { max_depth ≤ length slots.now → result ≡ is_near (walk_at slots.now p) e }
{
    if e.over {
        return false;
    }
    if MAX_DEPTH < p.depth {
        return false;
    }
    let stop = walk_fit::stop(slots, p, e.units);
    if stop < p.at {
        return false;
    }
    stop <= e.units
}
