// The indexed code that a caller names by its characters, as the row of the table, or none: 6.
#![tactic(auto)]

ghost use Rattle.std.specs.Prelude.{◌≡◌};
ghost use Rattle.format.specs.Indexed.{named_index};
ghost use Rattle.indexed_name.specs.Names.{as_named, selector_of, row_of, row_in};

use format::{IndexCode, IndexRow, Kind, Opening};

// A caller's selector as the table has it, 0 where the letter stands alone. `A`, whose sextet is 0 too, is no selector.
fn selector_of(c: u8) -> u8
    ensures { result ≡ selector_of c }
{
    if c == 0 {
        return 0;
    }
    let v = alphabet::sextet(c);
    if v == 0 { 64 } else { v }
}

fn row_of(kind: Kind) -> Option<IndexRow>
    ensures { as_named result ≡ row_of kind }
{
    match kind {
        Kind::Fixed(_) => None,
        Kind::Variable {
            letter: _,
            lead: _,
            count: _,
        } => None,
        Kind::Group { letter: _ } => None,
        Kind::Genus => None,
        Kind::Indexed(c) => Some(c),
    }
}

fn row_in(op: Opening) -> Option<IndexRow>
    ensures { as_named result ≡ row_in op }
{
    match op {
        Opening::Unknown => None,
        Opening::Short { kind, size: _ } => row_of(kind),
        Opening::Long { kind, size: _ } => row_of(kind),
        Opening::LargeVariable { letter: _, lead: _ } => None,
        Opening::LargeGroup {
            letter: _,
            digit: _,
        } => None,
        Opening::Version => None,
    }
}

pub fn name_of(code: IndexCode) -> Option<IndexRow>
    ensures { as_named result ≡ named_index code }
{
    let selector = selector_of(code.selector);
    let letter = alphabet::sextet(code.letter);
    let op = registry_indexed_table::indexed(selector, letter);
    row_in(op)
}
