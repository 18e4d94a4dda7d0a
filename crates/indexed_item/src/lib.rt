// A framed indexed item in a caller's words: its code, where its raw value starts, index and ondex. No stream is looked at. What is said
// holds of the rows of the table, and of 1,048,576 units at most.
#![tactic(auto)]

ghost use Rattle.std.specs.Prelude.{◌≡◌, ◌-◌, ◌*◌, ◌≤◌};
ghost use Rattle.format.specs.declared.Kind.TheVariants as Kind;
ghost use Rattle.format.specs.Indexed.{code_of_row, indexed_of};
ghost use Rattle.indexed_digits.specs.Placed.{Placed};
ghost use Rattle.indexed_item.specs.Items.{PlacedIn};

use format::{BinaryOffset, IndexCode, IndexRow, IndexedItem, Kind};

fn code_of(c: IndexRow) -> IndexCode
    ensures { result ≡ code_of_row c }
{
    let letter = alphabet::character(c.letter);
    if c.chars == 1 {
        return IndexCode {
            selector: 0,
            letter,
        };
    }
    let selector = alphabet::character(c.selector);
    IndexCode { selector, letter }
}

// The raw bytes of n units from one of them on.
fn raw_size(n: usize, start: usize) -> usize
    ensures { n ≤ 1048576 → result ≡ 3 * n - start }
{
    let total = 3 * n.min(1048576);
    total.saturating_sub(start)
}

// An item of n units, whose first sextets are given.
fn row_item(c: IndexRow, n: usize, cs: [u8; 12]) -> IndexedItem
    ensures { Placed c → n ≤ 1048576 → result ≡ indexed_of (Kind.Indexed c) 1 n cs }
{
    let code = code_of(c);
    let start = reading_start::indexed_start(c);
    let raw = raw_size(n, start.0);
    let index = indexed_digits::index_of(c, cs);
    let ondex = indexed_digits::ondex_of(c, cs);
    IndexedItem {
        code,
        size: n,
        start,
        raw,
        index,
        ondex,
    }
}

fn no_item() -> IndexedItem {
    IndexedItem {
        code: IndexCode {
            selector: 0,
            letter: 0,
        },
        size: 0,
        start: BinaryOffset(0),
        raw: 0,
        index: 0,
        ondex: 0,
    }
}

// Of another kind, which the indexed table does not open, nothing is said.
pub fn item_of(kind: Kind, n: usize, cs: [u8; 12]) -> IndexedItem
    ensures { PlacedIn kind → n ≤ 1048576 → result ≡ indexed_of kind 1 n cs }
{
    match kind {
        Kind::Indexed(c) => row_item(c, n, cs),
        Kind::Fixed(_) => no_item(),
        Kind::Variable {
            letter: _,
            lead: _,
            count: _,
        } => no_item(),
        Kind::Group { letter: _ } => no_item(),
        Kind::Genus => no_item(),
    }
}
