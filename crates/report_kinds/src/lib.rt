// What an item's kind says of the items in it: whether it is a group, whether 7 is asked of the first, and by which table they are framed.
#![tactic(auto)]

ghost use Rattle.std.specs.Prelude.{◌≡◌};
ghost use Rattle.report_kinds.specs.Kinds.{is_entered, is_ruled, holds_indexed};

use format::Kind;

// Every group is entered.
pub fn is_entered(kind: Kind) -> bool
    ensures { result ≡ is_entered kind }
{
    match kind {
        Kind::Fixed(_) => false,
        Kind::Variable {
            letter: _,
            lead: _,
            count: _,
        } => false,
        Kind::Group { letter: _ } => true,
        Kind::Genus => false,
        Kind::Indexed(_) => false,
    }
}

// A group of whose first item 7 is asked.
pub fn is_ruled(kind: Kind) -> bool
    ensures { result ≡ is_ruled kind }
{
    match kind {
        Kind::Fixed(_) => false,
        Kind::Variable {
            letter: _,
            lead: _,
            count: _,
        } => false,
        Kind::Group { letter } => registry::is_overrideable(letter),
        Kind::Genus => false,
        Kind::Indexed(_) => false,
    }
}

// A group whose items are indexed ones.
pub fn holds_indexed(kind: Kind) -> bool
    ensures { result ≡ holds_indexed kind }
{
    match kind {
        Kind::Fixed(_) => false,
        Kind::Variable {
            letter: _,
            lead: _,
            count: _,
        } => false,
        Kind::Group { letter } => registry::is_indexed(letter),
        Kind::Genus => false,
        Kind::Indexed(_) => false,
    }
}
