// The walk in instalments: on by at most a stated number of items, the state's ends in lent slots, of which an item copies none, or the
// state by value, in the stream's elements or in a form's own offsets. 1 and 13 are asked once a call, then the items are taken one by one
// (instalments_go). Assumes nothing of the state.
#![tactic(auto)]

ghost use Rattle.std.specs.Prelude.{◌≤◌, length, ◌≡◌};
ghost use Rattle.format.specs.Units.{domain, text, binary};
ghost use Rattle.format.specs.Judging.{max_depth};
ghost use Rattle.walk_state.specs.Lent.{walk_at};
ghost use Rattle.instalments.specs.Instalments.{walk_on, text_pause, text_walked, binary_pause, binary_walked};
ghost use Rattle.instalments.specs.Lent.{Goes, none};
ghost use Rattle.instalments.specs.declared.Pause.TheVariants as Pause;

use format::{BinaryOffset, Form, TextOffset};
use instalments::{Pause, Walked, Went};
use judging::MAX_DEPTH;
use walk_state::{Place, Walk};

// ---- 1 and 13, then the items, the ends in lent slots

// No item: 1 or 13.
fn halted(p: Place, number: u8) -> Went
    ensures { result ≡ none p (Pause.Refused number 0) }
{
    Went {
        place: p,
        items: 0,
        pause: Pause::Refused { number, place: 0 },
    }
}

// At most so many items from a state on, whose ends are lent. Too few slots stay as they are.
pub fn go_on(slots: &mut [usize], p: Place, form: Form, s: &[u8], budget: usize) -> Went
    ensures { max_depth ≤ length slots.old → Goes slots.old slots.new result (walk_on (domain form) s.now budget (walk_at slots.old p)) }
{
    let e = walk_extent::measured(form, s);
    if slots.len() < MAX_DEPTH {
        return halted(p, 13);
    }
    if e.over {
        return halted(p, 1);
    }
    if !walk_fit::is_fit(slots, p, e.units) {
        return halted(p, 13);
    }
    instalments_go::go(slots, p, form, s, budget)
}

// ---- the state by value

// At most so many items from a state on.
pub fn walk_on(w: Walk, form: Form, s: &[u8], budget: usize) -> Walked<usize>
    ensures { result ≡ walk_on (domain form) s.now budget w }
{
    let mut ends = w.ends;
    let g = go_on(&mut ends, w.place(), form, s, budget);
    let p = g.place;
    let pause = g.pause;
    Walked {
        next: Walk {
            ends,
            depth: p.depth,
            at: p.at,
            first: p.first,
            indexed: p.indexed,
        },
        items: g.items,
        pause,
    }
}

// ---- in a form's own offsets

fn text_pause(pause: Pause<usize>) -> Pause<TextOffset>
    ensures { result ≡ text_pause pause }
{
    match pause {
        Pause::Spent => Pause::Spent,
        Pause::End => Pause::End,
        Pause::Refused { number, place } => {
            let at = TextOffset(place);
            Pause::Refused { number, place: at }
        }
    }
}

// At most so many items of a text.
pub fn walk_on_text(w: Walk, s: &[u8], budget: usize) -> Walked<TextOffset>
    ensures { result ≡ text_walked (walk_on text s.now budget w) }
{
    let r = walk_on(w, Form::Text, s, budget);
    let next = r.next;
    let pause = r.pause;
    Walked {
        next,
        items: r.items,
        pause: text_pause(pause),
    }
}

fn binary_pause(pause: Pause<usize>) -> Pause<BinaryOffset>
    ensures { result ≡ binary_pause pause }
{
    match pause {
        Pause::Spent => Pause::Spent,
        Pause::End => Pause::End,
        Pause::Refused { number, place } => {
            let at = BinaryOffset(place);
            Pause::Refused { number, place: at }
        }
    }
}

// The same of a binary.
pub fn walk_on_binary(w: Walk, s: &[u8], budget: usize) -> Walked<BinaryOffset>
    ensures { result ≡ binary_walked (walk_on binary s.now budget w) }
{
    let r = walk_on(w, Form::Binary, s, budget);
    let next = r.next;
    let pause = r.pause;
    Walked {
        next,
        items: r.items,
        pause: binary_pause(pause),
    }
}
