// An indexed item as numbers for C, and in specs/ what C sees of its reading. Nothing is decided here.
#![tactic(auto)]

ghost use Rattle.std.specs.Prelude.{◌≡◌};
ghost use Rattle.exports_indexed.specs.Answers.{info_of};

use format::IndexedItem;

// What C is told of an indexed item.
pub const INDEXED: usize = 7;

#[tactic(auto, unfolding(crate::specs::Answers::info_of))]
pub fn info_of(p: IndexedItem) -> [usize; INDEXED]
    ensures { result ≡ info_of p }
{
    let code = p.code;
    let selector = usize::from(code.selector);
    let letter = usize::from(code.letter);
    [selector, letter, p.size, p.start.0, p.raw, p.index, p.ondex]
}
