// Where a raw value starts, by its code's row: in bytes from the start of the item's binary form. No stream is looked at.
#![tactic(auto)]

ghost use Rattle.std.specs.Prelude.{◌≡◌, ◌<◌};
ghost use Rattle.format.specs.declared.Kind.TheVariants as Kind;
ghost use Rattle.format.specs.Values.{raw_start};

use format::{BinaryOffset, CodeRow, IndexRow, TextOffset};

// Where a row's raw value starts, in the item's binary form.
pub fn fixed_start(c: CodeRow) -> BinaryOffset
    ensures { (result.0 ≡ raw_start (Kind.Fixed c) 1) × (result.0 < 1000) }
{
    if c.tag == 0 {
        let zeros = 2 * usize::from(c.pad) + 8 * usize::from(c.lead);
        BinaryOffset((6 * usize::from(c.chars) + zeros) / 8)
    } else {
        offsets::in_binary(TextOffset(usize::from(c.size)))
    }
}

// The same of an indexed row: behind code, index, ondex and pad bits.
pub fn indexed_start(c: IndexRow) -> BinaryOffset
    ensures { (result.0 ≡ raw_start (Kind.Indexed c) 1) × (result.0 < 1000) }
{
    let chars = usize::from(c.chars) + usize::from(c.index) + usize::from(c.ondex);
    BinaryOffset((6 * chars + usize::from(c.zeros)) / 8)
}
