// A step through a reader, for callers with plain parameters, that need no word of the reader.
#![tactic(auto)]

ghost use Rattle.std.specs.Prelude.{◌≡◌};
ghost use Rattle.walk_state.specs.Walking.{text_step, binary_step};

use format::{BinaryOffset, TextOffset};
use reader::Reader;
use walk_state::{Stepped, Walk};

// A step of a text through a reader that is opened, set to a state and asked for its state.
pub fn step_text(s: &[u8], walk: Walk) -> Stepped<TextOffset>
    ensures { result ≡ text_step s.now walk }
{
    let taken = Reader::new(s).resumed(walk).next_text();
    Stepped {
        next: taken.reader.state(),
        found: taken.found,
    }
}

// The same of a binary.
pub fn step_binary(s: &[u8], walk: Walk) -> Stepped<BinaryOffset>
    ensures { result ≡ binary_step s.now walk }
{
    let taken = Reader::new(s).resumed(walk).next_binary();
    Stepped {
        next: taken.reader.state(),
        found: taken.found,
    }
}
