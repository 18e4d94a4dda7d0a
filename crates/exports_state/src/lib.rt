// A walk's state that C lends, as a value with its ends: to a walk, and back. Nothing is decided here.
#![tactic(auto)]

ghost use Rattle.std.specs.Prelude.{◌≡◌};
ghost use Rattle.exports_values.specs.Lent.{walk_of, state_of};

use exports_values::STATE;
use judging::MAX_DEPTH;
use walk_state::Walk;

// By value, which copies the ends.
pub fn walk_of(s: [usize; STATE]) -> Walk
    ensures { result ≡ walk_of s }
{
    let mut ends = [0usize; MAX_DEPTH];
    ends.copy_from_slice(&s[0..MAX_DEPTH]);
    let p = exports_place::place_of(&s);
    Walk {
        ends,
        depth: p.depth,
        at: p.at,
        first: p.first,
        indexed: p.indexed,
    }
}

pub fn state_of(w: Walk) -> [usize; STATE]
    ensures { result ≡ state_of w }
{
    let mut s = [0usize; STATE];
    s[0..MAX_DEPTH].copy_from_slice(&w.ends);
    exports_place::put_place(&mut s, w.place());
    s
}
