// What a step found in a form's own offsets, which the types keep apart. Nothing is decided here.
#![tactic(auto)]

ghost use Rattle.std.specs.Prelude.{◌≡◌};
ghost use Rattle.walk_state.specs.Walking.{text_item, binary_item};

use format::{BinaryOffset, TextOffset};
use walk_state::Found;

pub fn text_item(found: Found<usize>) -> Found<TextOffset>
    ensures { result ≡ text_item found }
{
    match found {
        Found::Item {
            offset,
            size,
            depth,
            kind,
            head,
        } => Found::Item {
            offset: TextOffset(offset),
            size: TextOffset(size),
            depth,
            kind,
            head,
        },
        Found::Refused { number, place } => Found::Refused {
            number,
            place: TextOffset(place),
        },
        Found::End => Found::End,
    }
}

pub fn binary_item(found: Found<usize>) -> Found<BinaryOffset>
    ensures { result ≡ binary_item found }
{
    match found {
        Found::Item {
            offset,
            size,
            depth,
            kind,
            head,
        } => Found::Item {
            offset: BinaryOffset(offset),
            size: BinaryOffset(size),
            depth,
            kind,
            head,
        },
        Found::Refused { number, place } => Found::Refused {
            number,
            place: BinaryOffset(place),
        },
        Found::End => Found::End,
    }
}
