// The items of an instalment one by one, the state's ends in lent slots: one loop for both forms. 1 and 13 were asked before.
#![tactic(auto)]

ghost use Rattle.std.specs.Prelude.{◌≤◌, length};
ghost use Rattle.format.specs.Units.{domain};
ghost use Rattle.format.specs.Judging.{max_depth};
ghost use Rattle.walk.specs.Stepping.{Fits};
ghost use Rattle.walk_state.specs.Lent.{walk_at};
ghost use Rattle.instalments.specs.Instalments.{walk_on};
ghost use Rattle.instalments.specs.Lent.{Goes};

use format::Form;
use instalments::{Pause, Went};
use walk_state::{Found, Place};

// The items from a state on that fits a stream within the limit. Of any other it is said only that the call returns.
pub fn go(slots: &mut [usize], p: Place, form: Form, s: &[u8], budget: usize) -> Went
    ensures { max_depth ≤ length slots.old → Fits form s.now (walk_at slots.old p) → Goes slots.old slots.new result (walk_on (domain form) s.now budget (walk_at slots.old p)) }
{
    let mut q = p;
    for items in 0..budget {
        let m = walk::move_fit(slots, q, form, s);
        let found = m.found;
        match found {
            Found::Item {
                offset: _,
                size: _,
                depth: _,
                kind: _,
                head: _,
            } => {}
            Found::Refused { number, place } => {
                return Went {
                    place: q,
                    items,
                    pause: Pause::Refused { number, place },
                };
            }
            Found::End => {
                return Went {
                    place: q,
                    items,
                    pause: Pause::End,
                };
            }
        }
        q = m.place;
    }
    Went {
        place: q,
        items: budget,
        pause: Pause::Spent,
    }
}
