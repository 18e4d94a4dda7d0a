// All units of what is held and a piece behind it (02 f), one behind the other. Buffers of no bytes serve to count.
#![tactic(auto)]

ghost use Rattle.std.specs.Prelude.{◌≡◌, ◌+◌, ◌/◌, ◌≤◌, length};
ghost use Rattle.format.specs.Units.{domain};
ghost use Rattle.pieces_run.specs.Runs.{held_with, Starts, Running};

use format::Form;
use pieces_stage::Stage;
use pieces_turn::Ran;

// The whole units of so many elements that are held and the piece.
fn units_in(form: Form, count: usize, piece: &[u8]) -> usize
    ensures { count ≤ 4 → result ≡ (count + length piece.now) / (domain form).unit }
{
    if 4 < count {
        return 0;
    }
    report_units::units(form, count + piece.len())
}

// All of them. Of a state that is not fit, or a piece too long for it, it is said only that the call returns.
pub fn run(
    form: Form,
    slots: &mut [usize],
    g: Stage,
    held: [u8; 4],
    count: usize,
    piece: &[u8],
    items: &mut [u8],
    refusals: &mut [u8],
) -> Ran
    ensures { Starts form slots.old g count piece.now → Running (domain form).unit slots.old g ((domain form).sextets (held_with held count piece.now)) items.old refusals.old ((count + length piece.now) / (domain form).unit) slots.new result.stage items.new refusals.new result.items result.refusals }
{
    let u = report_units::unit(form);
    let n = units_in(form, count, piece);
    let mut stage = g;
    let mut i: usize = 0;
    let mut j: usize = 0;
    for k in 0..n {
        let q = pieces_units::unit_at(form, held, count, piece, k);
        let r = pieces_turn::turn(u, slots, stage, q, items, refusals, i, j);
        stage = r.stage;
        i = r.items;
        j = r.refusals;
    }
    Ran {
        stage,
        items: i,
        refusals: j,
    }
}
