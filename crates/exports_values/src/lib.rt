// What C sees of an answer, as definitions in specs/; how many numbers it lends and what each is, and a byte and a flag as numbers. The
// crates above tell codes, places, items and counts by it. Nothing is decided here.
#![tactic(auto)]

ghost use Rattle.std.specs.Prelude.{◌≡◌};
ghost use Rattle.base.specs.Pick.{pick};

use judging::MAX_DEPTH;

// What C is told of a primitive.
pub const INFO: usize = 7;

// ---- a walk's state: the ends of the groups open, how many are open, the position, the mark of a first item and that of indexed items

pub const STATE: usize = MAX_DEPTH + 4;

pub const OPEN: usize = MAX_DEPTH;

pub const AT: usize = MAX_DEPTH + 1;

pub const MARK: usize = MAX_DEPTH + 2;

pub const INDEXED: usize = MAX_DEPTH + 3;

// ---- a byte and a flag

pub fn mark_of(yes: bool) -> usize
    ensures { result ≡ pick yes 1 0 }
{
    usize::from(yes)
}
