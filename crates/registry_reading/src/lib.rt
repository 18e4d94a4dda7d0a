// What is read off the registry's answers: by what a first unit opens the header's units and the item's kind, and by a fixed code's row the
// zero bits and the prepad behind the code.
#![tactic(auto)]

ghost use Rattle.std.specs.Prelude.{◌≡◌, ◌+◌, ◌*◌, get_or};
ghost use Rattle.format.specs.Registry.{header_units, zero_bits_of, prepad_of};
ghost use Rattle.registry_reading.specs.Kinds.{kind_of};

use format::{CodeRow, Kind, Opening};

// A header's units; none where the code is unknown.
pub fn header_units(op: Opening) -> usize
    ensures { result ≡ header_units op }
{
    match op {
        Opening::Unknown => 0,
        Opening::Short { .. } => 1,
        Opening::Long { .. } => 2,
        Opening::LargeVariable { .. } => 2,
        Opening::LargeGroup { .. } => 2,
        Opening::Version => 2,
    }
}

// The item's kind, the second unit's sextets given.
pub fn kind(op: Opening, second: [u8; 4]) -> Kind
    ensures { result ≡ kind_of op (((get_or second 0 0 * 64 + get_or second 1 0) * 64 + get_or second 2 0) * 64 + get_or second 3 0) }
{
    let count = registry_extent::number(second);
    match op {
        Opening::Unknown => Kind::Genus,
        Opening::Short { kind, .. } => kind,
        Opening::Long { kind, .. } => kind,
        Opening::LargeVariable { letter, lead } => Kind::Variable {
            letter,
            lead,
            count,
        },
        Opening::LargeGroup { letter, .. } => Kind::Group { letter },
        Opening::Version => Kind::Genus,
    }
}

// How many bits behind a fixed code are zero.
pub fn zero_bits(c: CodeRow) -> usize
    ensures { result ≡ zero_bits_of c }
{
    if c.tag == 0 {
        return 2 * usize::from(c.pad) + 8 * usize::from(c.lead);
    }
    0
}

// How many sextets stand before a tag.
pub fn prepad(c: CodeRow) -> usize
    ensures { result ≡ prepad_of c }
{
    if c.tag == 0 {
        return 0;
    }
    let used = usize::from(c.chars) + usize::from(c.tag);
    usize::from(c.size).saturating_sub(used)
}
