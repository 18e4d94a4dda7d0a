// A walk's state that C lends, but for the ends of the groups open: read, and written. Nothing is decided here.
#![tactic(auto)]

ghost use Rattle.std.specs.Prelude.{◌≡◌, ◌++◌, ltb, length};
ghost use Rattle.base.specs.Pick.{pick};
ghost use Rattle.walk_state.specs.Lent.{slots_in};
ghost use Rattle.exports_values.specs.Lent.{state_size, too_many, place_in, place_numbers};

use exports_values::{AT, INDEXED, MARK, OPEN, STATE};
use judging::MAX_DEPTH;
use walk_state::Place;

// One more than may be open.
const TOO_MANY: usize = MAX_DEPTH + 1;

// A mark that is neither 0 nor 1 counts as too many open, which fits no stream.
fn open_of(depth: usize, mark: usize) -> usize
    ensures { result ≡ pick (ltb 1 mark) too_many depth }
{
    if 1 < mark { TOO_MANY } else { depth }
}

#[tactic(auto, unfolding(exports_values::specs::Lent::place_in))]
pub fn place_of(s: &[usize; STATE]) -> Place
    ensures { result ≡ place_in s.now }
{
    let open = s[OPEN];
    let at = s[AT];
    let mark = s[MARK];
    let indexed = s[INDEXED];
    let tabled = open_of(open, indexed);
    let depth = open_of(tabled, mark);
    Place {
        depth,
        at,
        first: mark == 1,
        indexed: indexed == 1,
    }
}

// Too few numbers stay as they are.
pub fn put_place(s: &mut [usize], p: Place)
    ensures { length s.old ≡ state_size → s.new ≡ slots_in s.old ++ place_numbers p.depth p.at p.first p.indexed }
{
    if s.len() < STATE {
        return;
    }
    s[OPEN] = p.depth;
    s[AT] = p.at;
    s[MARK] = exports_values::mark_of(p.first);
    s[INDEXED] = exports_values::mark_of(p.indexed);
}
