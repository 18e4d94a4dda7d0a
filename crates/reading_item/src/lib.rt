// A framed primitive in a caller's words: its code, where its raw value starts, and how many tag characters it has. No stream is looked
// at. What is said holds of what framing gives: two header units and 1,048,576 units at most, and a variable value that ends with the item.
#![tactic(auto)]

ghost use Rattle.std.specs.Prelude.{◌≡◌, ◌≤◌};
ghost use Rattle.format.specs.Values.{raw_start};
ghost use Rattle.format.specs.Reading.{code_of, is_primitive, tags_of, primitive_of};
ghost use Rattle.laws.specs.Framing.{Shaped};

use format::{BinaryOffset, Code, Kind, Primitive};

pub fn is_primitive(kind: Kind) -> bool
    ensures { result ≡ is_primitive kind }
{
    match kind {
        Kind::Fixed(_) => true,
        Kind::Variable {
            letter: _,
            lead: _,
            count: _,
        } => true,
        Kind::Group { letter: _ } => false,
        Kind::Genus => false,
        Kind::Indexed(_) => false,
    }
}

// ---- its parts

fn code_of(kind: Kind, h: usize) -> Code
    ensures { result ≡ code_of kind h }
{
    match kind {
        Kind::Fixed(c) => {
            let letter = c.letter;
            Code::Fixed {
                chars: c.chars,
                letter: alphabet::character(letter),
            }
        }
        Kind::Variable {
            letter,
            lead: _,
            count: _,
        } => {
            let t = alphabet::character(letter);
            if h == 1 {
                Code::Small { letter: t }
            } else {
                Code::Large { letter: t }
            }
        }
        Kind::Group { letter: _ } => Code::Fixed {
            chars: 0,
            letter: 0,
        },
        Kind::Genus => Code::Fixed {
            chars: 0,
            letter: 0,
        },
        Kind::Indexed(_) => Code::Fixed {
            chars: 0,
            letter: 0,
        },
    }
}

fn tags_of(kind: Kind) -> usize
    ensures { result ≡ tags_of kind }
{
    match kind {
        Kind::Fixed(c) => usize::from(c.tag),
        Kind::Variable {
            letter: _,
            lead: _,
            count: _,
        } => 0,
        Kind::Group { letter: _ } => 0,
        Kind::Genus => 0,
        Kind::Indexed(_) => 0,
    }
}

// Of a text it is the item's end, behind n units.
fn raw_start(kind: Kind, h: usize, n: usize) -> BinaryOffset
    requires { (h ≤ 2) × (n ≤ 1048576) }
    ensures { Shaped kind h n → result.0 ≡ raw_start kind h }
{
    match kind {
        Kind::Fixed(c) => reading_start::fixed_start(c),
        Kind::Variable {
            letter,
            lead,
            count: _,
        } => {
            if letter == 0 {
                return BinaryOffset(3 * n);
            }
            BinaryOffset(3 * h + usize::from(lead))
        }
        Kind::Group { letter: _ } => BinaryOffset(3 * h),
        Kind::Genus => BinaryOffset(3 * h),
        Kind::Indexed(c) => reading_start::indexed_start(c),
    }
}

// A primitive of n units with h header units, and a text of so many characters; no more units are counted than framing gives.
pub fn primitive_of(kind: Kind, h: usize, n: usize, text: usize) -> Primitive
    ensures { h ≤ 2 → n ≤ 1048576 → Shaped kind h n → result ≡ primitive_of kind h n text }
{
    let few = h.min(2);
    let units = n.min(1048576);
    let start = raw_start(kind, few, units);
    let raw = (3 * units).saturating_sub(start.0);
    let code = code_of(kind, h);
    let tags = tags_of(kind);
    Primitive {
        code,
        size: n,
        start,
        raw,
        text,
        tags,
    }
}
