// One unit more of what is held and a piece behind it (02 f): it takes the state on, and an item's last unit gives its rows. Rows that do not fit
// are not stored.
#![tactic(auto)]

ghost use Rattle.std.specs.Prelude.{◌≡◌, ◌+◌, ◌≤◌};
ghost use Rattle.pieces_stage.specs.Stages.{far};
ghost use Rattle.pieces_turn.specs.Turns.{Able, Turned};

use pieces_stage::Stage;

// The state behind some units, and how many items and refusals they gave.
#[derive(Clone, Copy)]
pub struct Ran {
    pub stage: Stage,
    pub items: usize,
    pub refusals: usize,
}

// More than any count.
const FAR: usize = 2147483648;

// One more, or none.
fn with_few(j: usize, r: usize) -> usize
    requires { j ≤ far }
    ensures { r ≤ 1 → result ≡ j + r }
{
    if r == 0 { j } else { j + 1 }
}

// One unit more, behind i items and j refusals. Of a state that is not ready it is said only that the call returns.
pub fn turn(
    u: usize,
    slots: &mut [usize],
    g: Stage,
    q: [u8; 4],
    items: &mut [u8],
    refusals: &mut [u8],
    i: usize,
    j: usize,
) -> Ran
    ensures { Able u slots.old g i j → Turned u slots.old slots.new g q items.old items.new refusals.old refusals.new i j result }
{
    let next = pieces_step::step(slots, g, q);
    if !pieces_stage::is_whole(next) {
        return Ran {
            stage: next,
            items: i,
            refusals: j,
        };
    }
    if FAR < i {
        return Ran {
            stage: next,
            items: i,
            refusals: j,
        };
    }
    if FAR < j {
        return Ran {
            stage: next,
            items: i,
            refusals: j,
        };
    }
    let r = pieces_rows::put_rows(u, next, items, refusals, i, j);
    let stage = pieces_stage::told(next);
    Ran {
        stage,
        items: i + 1,
        refusals: with_few(j, r),
    }
}
