// An item of the walk as numbers for C: where it lies, and its code as three numbers. Nothing is decided here.
#![tactic(auto)]

ghost use Rattle.std.specs.Prelude.{◌≡◌, eqb};
ghost use Rattle.base.specs.Pick.{pick};
ghost use Rattle.format.specs.Alphabet.{char_of};
ghost use Rattle.format.specs.Indexed.{code_of_row};
ghost use Rattle.exports_values.specs.Lent.{sort_of, sign_of, lead_of, item_of};

use format::{IndexRow, Kind};

// small where the header is one unit
fn sized(head: usize, small: usize, large: usize) -> usize
    ensures { result ≡ pick (eqb head 1) small large }
{
    if head == 1 { small } else { large }
}

#[tactic(auto, unfolding(exports_values::specs::Lent::sort_of))]
fn sort_of(kind: Kind, head: usize) -> usize
    ensures { result ≡ sort_of kind head }
{
    match kind {
        Kind::Fixed(c) => usize::from(c.chars),
        Kind::Variable {
            letter: _,
            lead: _,
            count: _,
        } => sized(head, 5, 6),
        Kind::Group { letter: _ } => sized(head, 7, 8),
        Kind::Genus => 9,
        Kind::Indexed(_) => 10,
    }
}

fn character_of(letter: u8) -> usize
    ensures { result ≡ char_of letter }
{
    usize::from(alphabet::character(letter))
}

#[tactic(auto, unfolding(exports_values::specs::Lent::sign_of, format::specs::Indexed::code_of_row))]
fn sign_of(kind: Kind) -> usize
    ensures { result ≡ sign_of kind }
{
    match kind {
        Kind::Fixed(c) => {
            let letter = c.letter;
            character_of(letter)
        }
        Kind::Variable {
            letter,
            lead: _,
            count: _,
        } => character_of(letter),
        Kind::Group { letter } => character_of(letter),
        Kind::Genus => 0,
        Kind::Indexed(c) => {
            let letter = c.letter;
            character_of(letter)
        }
    }
}

// 0 where the letter stands alone
#[tactic(auto, unfolding(format::specs::Indexed::code_of_row))]
fn selector_of(c: IndexRow) -> usize
    ensures { result ≡ (code_of_row c).selector }
{
    let selector = c.selector;
    if c.chars == 1 {
        return 0;
    }
    character_of(selector)
}

#[tactic(auto, unfolding(exports_values::specs::Lent::lead_of))]
fn lead_of(kind: Kind) -> usize
    ensures { result ≡ lead_of kind }
{
    match kind {
        Kind::Fixed(_) => 0,
        Kind::Variable {
            letter: _,
            lead,
            count: _,
        } => usize::from(lead),
        Kind::Group { letter: _ } => 0,
        Kind::Genus => 0,
        Kind::Indexed(c) => selector_of(c),
    }
}

#[tactic(auto, unfolding(exports_values::specs::Lent::item_of))]
pub fn item_of(offset: usize, size: usize, depth: usize, kind: Kind, head: usize) -> [usize; 6]
    ensures { result ≡ item_of offset size depth kind head }
{
    let sort = sort_of(kind, head);
    let sign = sign_of(kind);
    let lead = lead_of(kind);
    [offset, size, depth, sort, sign, lead]
}
