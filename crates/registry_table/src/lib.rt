// The code registry as one fixed table of sizes, and the look-up of a fixed code in it.
#![tactic(auto)]

ghost use Rattle.std.specs.Prelude.{◌≡◌, ◌+◌, ◌<◌, ◌≤◌};
ghost use Rattle.format.specs.Registry.{fixed};
ghost use Rattle.registry_table.specs.Places.{row_at, fixed_from};

use format::{CodeRow, Kind, Opening};

// `A` to `Z` and `a`, `0A` to `0O`, `1AAA` to `1AAP`, in that order.
const ROWS: [CodeRow; 58] = [
    CodeRow {
        chars: 1,
        letter: 0,
        size: 44,
        pad: 1,
        lead: 0,
        tag: 0,
    },
    CodeRow {
        chars: 1,
        letter: 1,
        size: 44,
        pad: 1,
        lead: 0,
        tag: 0,
    },
    CodeRow {
        chars: 1,
        letter: 2,
        size: 44,
        pad: 1,
        lead: 0,
        tag: 0,
    },
    CodeRow {
        chars: 1,
        letter: 3,
        size: 44,
        pad: 1,
        lead: 0,
        tag: 0,
    },
    CodeRow {
        chars: 1,
        letter: 4,
        size: 44,
        pad: 1,
        lead: 0,
        tag: 0,
    },
    CodeRow {
        chars: 1,
        letter: 5,
        size: 44,
        pad: 1,
        lead: 0,
        tag: 0,
    },
    CodeRow {
        chars: 1,
        letter: 6,
        size: 44,
        pad: 1,
        lead: 0,
        tag: 0,
    },
    CodeRow {
        chars: 1,
        letter: 7,
        size: 44,
        pad: 1,
        lead: 0,
        tag: 0,
    },
    CodeRow {
        chars: 1,
        letter: 8,
        size: 44,
        pad: 1,
        lead: 0,
        tag: 0,
    },
    CodeRow {
        chars: 1,
        letter: 9,
        size: 44,
        pad: 1,
        lead: 0,
        tag: 0,
    },
    CodeRow {
        chars: 1,
        letter: 10,
        size: 76,
        pad: 1,
        lead: 0,
        tag: 0,
    },
    CodeRow {
        chars: 1,
        letter: 11,
        size: 76,
        pad: 1,
        lead: 0,
        tag: 0,
    },
    CodeRow {
        chars: 1,
        letter: 12,
        size: 4,
        pad: 1,
        lead: 0,
        tag: 0,
    },
    CodeRow {
        chars: 1,
        letter: 13,
        size: 12,
        pad: 1,
        lead: 0,
        tag: 0,
    },
    CodeRow {
        chars: 1,
        letter: 14,
        size: 44,
        pad: 1,
        lead: 0,
        tag: 0,
    },
    CodeRow {
        chars: 1,
        letter: 15,
        size: 124,
        pad: 1,
        lead: 0,
        tag: 0,
    },
    CodeRow {
        chars: 1,
        letter: 16,
        size: 44,
        pad: 1,
        lead: 0,
        tag: 0,
    },
    CodeRow {
        chars: 1,
        letter: 17,
        size: 8,
        pad: 1,
        lead: 0,
        tag: 0,
    },
    CodeRow {
        chars: 1,
        letter: 18,
        size: 16,
        pad: 1,
        lead: 0,
        tag: 0,
    },
    CodeRow {
        chars: 1,
        letter: 19,
        size: 20,
        pad: 1,
        lead: 0,
        tag: 0,
    },
    CodeRow {
        chars: 1,
        letter: 20,
        size: 24,
        pad: 1,
        lead: 0,
        tag: 0,
    },
    CodeRow {
        chars: 1,
        letter: 21,
        size: 4,
        pad: 1,
        lead: 1,
        tag: 0,
    },
    CodeRow {
        chars: 1,
        letter: 22,
        size: 4,
        pad: 1,
        lead: 0,
        tag: 0,
    },
    CodeRow {
        chars: 1,
        letter: 23,
        size: 4,
        pad: 1,
        lead: 0,
        tag: 3,
    },
    CodeRow {
        chars: 1,
        letter: 24,
        size: 8,
        pad: 1,
        lead: 0,
        tag: 7,
    },
    CodeRow {
        chars: 1,
        letter: 25,
        size: 12,
        pad: 1,
        lead: 0,
        tag: 11,
    },
    CodeRow {
        chars: 1,
        letter: 26,
        size: 44,
        pad: 1,
        lead: 0,
        tag: 0,
    },
    CodeRow {
        chars: 2,
        letter: 0,
        size: 24,
        pad: 2,
        lead: 0,
        tag: 0,
    },
    CodeRow {
        chars: 2,
        letter: 1,
        size: 88,
        pad: 2,
        lead: 0,
        tag: 0,
    },
    CodeRow {
        chars: 2,
        letter: 2,
        size: 88,
        pad: 2,
        lead: 0,
        tag: 0,
    },
    CodeRow {
        chars: 2,
        letter: 3,
        size: 88,
        pad: 2,
        lead: 0,
        tag: 0,
    },
    CodeRow {
        chars: 2,
        letter: 4,
        size: 88,
        pad: 2,
        lead: 0,
        tag: 0,
    },
    CodeRow {
        chars: 2,
        letter: 5,
        size: 88,
        pad: 2,
        lead: 0,
        tag: 0,
    },
    CodeRow {
        chars: 2,
        letter: 6,
        size: 88,
        pad: 2,
        lead: 0,
        tag: 0,
    },
    CodeRow {
        chars: 2,
        letter: 7,
        size: 8,
        pad: 2,
        lead: 0,
        tag: 0,
    },
    CodeRow {
        chars: 2,
        letter: 8,
        size: 88,
        pad: 2,
        lead: 0,
        tag: 0,
    },
    CodeRow {
        chars: 2,
        letter: 9,
        size: 4,
        pad: 2,
        lead: 0,
        tag: 1,
    },
    CodeRow {
        chars: 2,
        letter: 10,
        size: 4,
        pad: 2,
        lead: 0,
        tag: 2,
    },
    CodeRow {
        chars: 2,
        letter: 11,
        size: 8,
        pad: 2,
        lead: 0,
        tag: 5,
    },
    CodeRow {
        chars: 2,
        letter: 12,
        size: 8,
        pad: 2,
        lead: 0,
        tag: 6,
    },
    CodeRow {
        chars: 2,
        letter: 13,
        size: 12,
        pad: 2,
        lead: 0,
        tag: 9,
    },
    CodeRow {
        chars: 2,
        letter: 14,
        size: 12,
        pad: 2,
        lead: 0,
        tag: 10,
    },
    CodeRow {
        chars: 4,
        letter: 0,
        size: 48,
        pad: 0,
        lead: 0,
        tag: 0,
    },
    CodeRow {
        chars: 4,
        letter: 1,
        size: 48,
        pad: 0,
        lead: 0,
        tag: 0,
    },
    CodeRow {
        chars: 4,
        letter: 2,
        size: 80,
        pad: 0,
        lead: 0,
        tag: 0,
    },
    CodeRow {
        chars: 4,
        letter: 3,
        size: 80,
        pad: 0,
        lead: 0,
        tag: 0,
    },
    CodeRow {
        chars: 4,
        letter: 4,
        size: 156,
        pad: 0,
        lead: 0,
        tag: 0,
    },
    CodeRow {
        chars: 4,
        letter: 5,
        size: 8,
        pad: 0,
        lead: 0,
        tag: 4,
    },
    CodeRow {
        chars: 4,
        letter: 6,
        size: 36,
        pad: 0,
        lead: 0,
        tag: 0,
    },
    CodeRow {
        chars: 4,
        letter: 7,
        size: 100,
        pad: 0,
        lead: 0,
        tag: 0,
    },
    CodeRow {
        chars: 4,
        letter: 8,
        size: 48,
        pad: 0,
        lead: 0,
        tag: 0,
    },
    CodeRow {
        chars: 4,
        letter: 9,
        size: 48,
        pad: 0,
        lead: 0,
        tag: 0,
    },
    CodeRow {
        chars: 4,
        letter: 10,
        size: 4,
        pad: 0,
        lead: 0,
        tag: 0,
    },
    CodeRow {
        chars: 4,
        letter: 11,
        size: 4,
        pad: 0,
        lead: 0,
        tag: 0,
    },
    CodeRow {
        chars: 4,
        letter: 12,
        size: 4,
        pad: 0,
        lead: 0,
        tag: 0,
    },
    CodeRow {
        chars: 4,
        letter: 13,
        size: 12,
        pad: 0,
        lead: 0,
        tag: 8,
    },
    CodeRow {
        chars: 4,
        letter: 14,
        size: 4,
        pad: 0,
        lead: 0,
        tag: 0,
    },
    CodeRow {
        chars: 4,
        letter: 15,
        size: 4,
        pad: 0,
        lead: 0,
        tag: 0,
    },
];

// The table is named here alone.
fn row_at(k: usize) -> CodeRow
    requires { k < 58 }
    ensures { result ≡ row_at k }
{
    ROWS[k]
}

// The code of a letter among so many rows of the table, whose letters run from A on.
#[tactic(auto, unfolding(crate::specs::Places::fixed_from))]
fn fixed_from(from: usize, count: u8, letter: u8) -> Opening
    requires { from + count ≤ 58 }
    ensures { result ≡ fixed_from from count letter }
{
    if letter < count {
        let row = row_at(from + usize::from(letter));
        let size = row.size;
        Opening::Short {
            kind: Kind::Fixed(row),
            size: usize::from(size / 4),
        }
    } else {
        Opening::Unknown
    }
}

// A fixed code by the number of its characters and its letter's sextet; nothing known where there is none.
pub fn fixed(chars: u8, letter: u8) -> Opening
    ensures { result ≡ fixed chars letter }
{
    if chars == 1 {
        return fixed_from(0, 27, letter);
    }
    if chars == 2 {
        return fixed_from(27, 15, letter);
    }
    if chars == 4 {
        return fixed_from(42, 16, letter);
    }
    Opening::Unknown
}
