// A walk counted: how many items are left from a state on, and what stops it. One loop serves both forms.
#![tactic(auto)]

ghost use Rattle.std.specs.Prelude.{◌≡◌};
ghost use Rattle.format.specs.Units.{domain, text, binary};
ghost use Rattle.walk_state.specs.Walking.{start};
ghost use Rattle.walk_tally.specs.Counting.{rest_in, text_tally, binary_tally};

use format::{BinaryOffset, Form, TextOffset};
use walk_state::{Found, Walk};
use walk_tally::{Counted, Tally};

// The items that are left from a state on, and what stops the walk.
pub fn rest_in(form: Form, s: &[u8], walk: Walk) -> Tally
    ensures { result ≡ rest_in (domain form) s.now walk }
{
    let mut w = walk;
    let mut items: usize = 0;
    loop {
        let t = walk::step_in(w, form, s);
        let found = t.found;
        match found {
            Found::Item {
                offset: _,
                size: _,
                depth: _,
                kind: _,
                head: _,
            } => {}
            Found::Refused {
                number: _,
                place: _,
            } => {
                return Tally { items, last: found };
            }
            Found::End => {
                return Tally { items, last: found };
            }
        }
        w = t.next;
        items = items + 1;
    }
}

// ---- a text

// The items of a text that are left from a state on, and how the walk ends.
pub fn rest_text(s: &[u8], walk: Walk) -> Counted<TextOffset>
    ensures { result ≡ text_tally (rest_in text s.now walk) }
{
    let t = rest_in(Form::Text, s, walk);
    let last = t.last;
    Counted {
        items: t.items,
        end: walk_tally::text_end(last),
    }
}

// All the items of a text.
pub fn items_text(s: &[u8]) -> Counted<TextOffset>
    ensures { result ≡ text_tally (rest_in text s.now start) }
{
    rest_text(s, Walk::new())
}

// ---- a binary

// The same of a binary.
pub fn rest_binary(s: &[u8], walk: Walk) -> Counted<BinaryOffset>
    ensures { result ≡ binary_tally (rest_in binary s.now walk) }
{
    let t = rest_in(Form::Binary, s, walk);
    let last = t.last;
    Counted {
        items: t.items,
        end: walk_tally::binary_end(last),
    }
}

// All the items of a binary.
pub fn items_binary(s: &[u8]) -> Counted<BinaryOffset>
    ensures { result ≡ binary_tally (rest_in binary s.now start) }
{
    rest_binary(s, Walk::new())
}
