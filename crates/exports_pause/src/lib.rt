// What an instalment answered, as numbers for C: why it is over, and the state behind it in the numbers that C lent. Nothing is decided
// here.
#![tactic(auto)]

ghost use Rattle.std.specs.Prelude.{◌≡◌, ◌++◌, eqb};
ghost use Rattle.base.specs.Pick.{pick};
ghost use Rattle.walk_state.specs.Lent.{slots_in};
ghost use Rattle.instalments.specs.Numbers.{pause_number, pause_place};
ghost use Rattle.exports_values.specs.Lent.{place_numbers};

use exports_values::STATE;
use instalments::Pause;
use walk_state::Place;

#[tactic(auto, unfolding(instalments::specs::Numbers::pause_number))]
pub fn number_of(pause: Pause<usize>) -> u8
    ensures { result ≡ pause_number pause }
{
    match pause {
        Pause::Spent => 0,
        Pause::End => 255,
        Pause::Refused { number, place: _ } => number,
    }
}

#[tactic(auto, unfolding(instalments::specs::Numbers::pause_place))]
pub fn place_of(pause: Pause<usize>) -> usize
    ensures { result ≡ pause_place pause }
{
    match pause {
        Pause::Spent => 0,
        Pause::End => 0,
        Pause::Refused { number: _, place } => place,
    }
}

// With no item the state stays as it was, also where it is none.
pub fn put_behind(state: &mut [usize; STATE], items: usize, next: Place)
    ensures { state.new ≡ pick (eqb items 0) state.old (slots_in state.old ++ place_numbers next.depth next.at next.first next.indexed) }
{
    if items == 0 {
        return;
    }
    exports_place::put_place(state, next);
}
