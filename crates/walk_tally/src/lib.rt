// What a counted walk gives: how many items, and what stopped it, in the stream's elements or in a form's own offsets. Its definition and what
// is claimed of it stand in specs/; the loop is in walk_count.
#![tactic(auto)]

ghost use Rattle.std.specs.Prelude.{◌≡◌};
ghost use Rattle.walk_tally.specs.Counting.{text_end, binary_end};

use format::{BinaryOffset, Refusal, TextOffset};
use walk_state::Found;

// last: what the step behind the items finds, which is none.
#[derive(Clone, Copy)]
pub struct Tally {
    pub items: usize,
    pub last: Found<usize>,
}

// The same in a form's own offsets. end: the refusal that stopped the walk; none where the stream ended.
#[derive(Clone, Copy)]
pub struct Counted<P> {
    pub items: usize,
    pub end: Option<Refusal<P>>,
}

// How a walk over a text ended. No walk stops at an item.
pub fn text_end(last: Found<usize>) -> Option<Refusal<TextOffset>>
    ensures { result ≡ text_end last }
{
    match last {
        Found::Item { .. } => None,
        Found::Refused { number, place } => {
            let at = TextOffset(place);
            Some(Refusal { number, place: at })
        }
        Found::End => None,
    }
}

// The same of a binary.
pub fn binary_end(last: Found<usize>) -> Option<Refusal<BinaryOffset>>
    ensures { result ≡ binary_end last }
{
    match last {
        Found::Item { .. } => None,
        Found::Refused { number, place } => {
            let place = BinaryOffset(place);
            Some(Refusal { number, place })
        }
        Found::End => None,
    }
}
