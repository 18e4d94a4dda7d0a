// The indexed code table of source document 003 as one fixed table, and the look-up of a code in it.
#![tactic(auto)]

ghost use Rattle.std.specs.Prelude.{◌≡◌, ◌+◌, ◌<◌, ◌≤◌};
ghost use Rattle.format.specs.Registry.{indexed_row, indexed_by};
ghost use Rattle.registry_indexed_table.specs.Places.{row_at, indexed_from};

use format::{IndexRow, Kind, Opening};

// `A` to `D`, `0A` and `0B`, `2A` to `2D`, `3A` and `3B`, in that order.
const ROWS: [IndexRow; 12] = [
    IndexRow {
        chars: 1,
        selector: 0,
        letter: 0,
        size: 88,
        index: 1,
        ondex: 0,
        zeros: 4,
        current: 0,
    },
    IndexRow {
        chars: 1,
        selector: 0,
        letter: 1,
        size: 88,
        index: 1,
        ondex: 0,
        zeros: 4,
        current: 1,
    },
    IndexRow {
        chars: 1,
        selector: 0,
        letter: 2,
        size: 88,
        index: 1,
        ondex: 0,
        zeros: 4,
        current: 0,
    },
    IndexRow {
        chars: 1,
        selector: 0,
        letter: 3,
        size: 88,
        index: 1,
        ondex: 0,
        zeros: 4,
        current: 1,
    },
    IndexRow {
        chars: 2,
        selector: 52,
        letter: 0,
        size: 156,
        index: 1,
        ondex: 1,
        zeros: 0,
        current: 0,
    },
    IndexRow {
        chars: 2,
        selector: 52,
        letter: 1,
        size: 156,
        index: 1,
        ondex: 1,
        zeros: 0,
        current: 1,
    },
    IndexRow {
        chars: 2,
        selector: 54,
        letter: 0,
        size: 92,
        index: 2,
        ondex: 2,
        zeros: 4,
        current: 0,
    },
    IndexRow {
        chars: 2,
        selector: 54,
        letter: 1,
        size: 92,
        index: 2,
        ondex: 2,
        zeros: 4,
        current: 1,
    },
    IndexRow {
        chars: 2,
        selector: 54,
        letter: 2,
        size: 92,
        index: 2,
        ondex: 2,
        zeros: 4,
        current: 0,
    },
    IndexRow {
        chars: 2,
        selector: 54,
        letter: 3,
        size: 92,
        index: 2,
        ondex: 2,
        zeros: 4,
        current: 1,
    },
    IndexRow {
        chars: 2,
        selector: 55,
        letter: 0,
        size: 160,
        index: 3,
        ondex: 3,
        zeros: 0,
        current: 0,
    },
    IndexRow {
        chars: 2,
        selector: 55,
        letter: 1,
        size: 160,
        index: 3,
        ondex: 3,
        zeros: 0,
        current: 1,
    },
];

// The table is named here alone.
fn row_at(k: usize) -> IndexRow
    requires { k < 12 }
    ensures { result ≡ row_at k }
{
    ROWS[k]
}

// A row's opening: selectors `2` and `3` have a header of two units.
#[tactic(auto, unfolding(format::specs::Registry::indexed_row, format::specs::Registry::index_head))]
fn row_opening(row: IndexRow) -> Opening
    ensures { result ≡ indexed_row row }
{
    let size = row.size;
    if row.selector < 54 {
        Opening::Short {
            kind: Kind::Indexed(row),
            size: usize::from(size / 4),
        }
    } else {
        Opening::Long {
            kind: Kind::Indexed(row),
            size: usize::from(size / 4),
        }
    }
}

// The code of a letter among so many rows of the table, whose letters run from A on.
#[tactic(auto, unfolding(crate::specs::Places::indexed_from))]
fn indexed_from(from: usize, count: u8, letter: u8) -> Opening
    requires { from + count ≤ 12 }
    ensures { result ≡ indexed_from from count letter }
{
    if letter < count {
        row_opening(row_at(from + usize::from(letter)))
    } else {
        Opening::Unknown
    }
}

// A code by its selector's sextet, 0 where the letter stands alone, and its letter's; nothing known where there is none.
pub fn indexed(selector: u8, letter: u8) -> Opening
    ensures { result ≡ indexed_by selector letter }
{
    if selector == 0 {
        return indexed_from(0, 4, letter);
    }
    if selector == 52 {
        return indexed_from(4, 2, letter);
    }
    if selector == 54 {
        return indexed_from(6, 4, letter);
    }
    if selector == 55 {
        return indexed_from(10, 2, letter);
    }
    Opening::Unknown
}
