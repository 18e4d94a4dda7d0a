// Offsets of the two forms, which are never interchangeable numbers, and the four-to-three conversion between them.
#![tactic(auto)]

ghost use Rattle.std.specs.Prelude.{◌≡◌};
ghost use Rattle.format.specs.Offsets.{offset_in_binary, offset_in_text};

use format::{BinaryOffset, TextOffset};

// The start of the unit that holds a text offset, as a binary offset.
pub fn in_binary(t: TextOffset) -> BinaryOffset
    ensures { result ≡ offset_in_binary t }
{
    let n = t.0;
    BinaryOffset(n / 4 * 3)
}

// The start of the unit that holds a binary offset, as a text offset; none past the longest stream.
pub fn in_text(b: BinaryOffset) -> Option<TextOffset>
    ensures { result ≡ offset_in_text b }
{
    let n = b.0;
    if n <= 3145728 {
        Some(TextOffset(n / 3 * 4))
    } else {
        None
    }
}
