// The tag characters of a framed primitive, by its first sextets. What is said holds of a row whose tag characters end with the item.
#![tactic(auto)]

ghost use Rattle.std.specs.Prelude.{◌≡◌, ◌+◌, ◌≤◌};
ghost use Rattle.format.specs.declared.Kind.TheVariants as Kind;
ghost use Rattle.format.specs.Values.{tag_of};
ghost use Rattle.format.specs.Reading.{padded};
ghost use Rattle.reading_tag.specs.Tags.{tag_from, Taggable};

use format::{CodeRow, Kind};

// Those from a place of the first sextets on, and then zeros.
fn tag_from(cs: [u8; 12], start: usize, count: usize) -> [u8; 11]
    requires { (start + count ≤ 12) × (count ≤ 11) }
    ensures { result ≡ tag_from cs start count }
{
    let mut tag = [0u8; 11];
    for i in 0..count {
        tag[i] = alphabet::character(cs[start + i]);
    }
    tag
}

// A row's end with the item; those that do not lie in the first sextets are not looked at.
fn row_tag(c: CodeRow, cs: [u8; 12]) -> [u8; 11]
    ensures { Taggable (Kind.Fixed c) → result ≡ padded (tag_of (Kind.Fixed c) cs) }
{
    let tag = usize::from(c.tag);
    if tag == 0 {
        return [0; 11];
    }
    let start = usize::from(c.size).saturating_sub(tag);
    if 11 < tag {
        return [0; 11];
    }
    if 12 < start + tag {
        return [0; 11];
    }
    tag_from(cs, start, tag)
}

pub fn tag_of(kind: Kind, cs: [u8; 12]) -> [u8; 11]
    ensures { Taggable kind → result ≡ padded (tag_of kind cs) }
{
    match kind {
        Kind::Fixed(c) => row_tag(c, cs),
        Kind::Variable {
            letter: _,
            lead: _,
            count: _,
        } => [0; 11],
        Kind::Group { letter: _ } => [0; 11],
        Kind::Genus => [0; 11],
        Kind::Indexed(_) => [0; 11],
    }
}
