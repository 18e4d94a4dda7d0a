// The code that a caller names, whether tag characters and a raw value or a text fit it, and how large its item is: what 6 and 12
// ask. A text's characters stand where the raw value does.
#![tactic(auto)]

ghost use Rattle.std.specs.Prelude.{◌≡◌};
ghost use Rattle.format.specs.Alphabet.{sextet_of};
ghost use Rattle.format.specs.Writing.{named, named_fixed, named_variable, is_named, is_fit, raw_size, units_of};
ghost use Rattle.writing_code.specs.Names.{as_named};

use format::{Code, CodeRow, Kind, Opening, TextOffset};

// A code that is a primitive's, or none.
#[derive(Clone, Copy)]
pub enum Named {
    Unknown,
    Row(CodeRow),
    // letter: the variable type as a sextet, another than `A`; head: the header's units
    Variable { letter: u8, head: u8 },
    // type `A`
    Textual { head: u8 },
}

// ---- 6: the code that is named

fn row_of(op: Opening) -> Named
    ensures { as_named result ≡ named_fixed op }
{
    match op {
        Opening::Unknown => Named::Unknown,
        Opening::Short { kind, size: _ } => match kind {
            Kind::Fixed(c) => Named::Row(c),
            Kind::Variable {
                letter: _,
                lead: _,
                count: _,
            } => Named::Unknown,
            Kind::Group { letter: _ } => Named::Unknown,
            Kind::Genus => Named::Unknown,
            Kind::Indexed(_) => Named::Unknown,
        },
        Opening::Long { kind: _, size: _ } => Named::Unknown,
        Opening::LargeVariable { letter: _, lead: _ } => Named::Unknown,
        Opening::LargeGroup {
            letter: _,
            digit: _,
        } => Named::Unknown,
        Opening::Version => Named::Unknown,
    }
}

fn type_of(letter: u8, head: u8) -> Named
    ensures { as_named result ≡ named_variable (sextet_of letter) head }
{
    let t = alphabet::sextet(letter);
    if registry_variable::is_type(t) {
        if t == 0 {
            Named::Textual { head }
        } else {
            Named::Variable { letter: t, head }
        }
    } else {
        Named::Unknown
    }
}

pub fn name_of(code: Code) -> Named
    ensures { as_named result ≡ named code }
{
    match code {
        Code::Fixed { chars, letter } => {
            let l = alphabet::sextet(letter);
            let op = registry_table::fixed(chars, l);
            row_of(op)
        }
        Code::Small { letter } => type_of(letter, 1),
        Code::Large { letter } => type_of(letter, 2),
    }
}

pub fn is_named(n: Named) -> bool
    ensures { result ≡ is_named (as_named n) }
{
    match n {
        Named::Unknown => false,
        Named::Row(_) => true,
        Named::Variable { letter: _, head: _ } => true,
        Named::Textual { head: _ } => true,
    }
}

// ---- 12: what the code holds

fn raw_size(c: CodeRow) -> usize
    ensures { result ≡ raw_size c }
{
    let start = reading_start::fixed_start(c).0;
    let full = offsets::in_binary(TextOffset(usize::from(c.size))).0;
    full.saturating_sub(start)
}

pub fn is_fit(n: Named, tags: usize, raw: usize) -> bool
    ensures { result ≡ is_fit (as_named n) tags raw }
{
    match n {
        Named::Unknown => false,
        Named::Row(c) => {
            if tags == usize::from(c.tag) {
                raw == raw_size(c)
            } else {
                false
            }
        }
        Named::Variable { letter: _, head } => {
            if tags == 0 {
                raw <= writing_limits::raw_limit(head)
            } else {
                false
            }
        }
        Named::Textual { head } => {
            if tags == 0 {
                writing_limits::text_fits(head, raw)
            } else {
                false
            }
        }
    }
}

// ---- the full size

pub fn units_of(n: Named, raw: usize) -> usize
    ensures { result ≡ units_of (as_named n) raw }
{
    match n {
        Named::Unknown => 0,
        Named::Row(c) => usize::from(c.size) / 4,
        Named::Variable { letter: _, head } => usize::from(head) + writing_sizes::count_for(raw),
        Named::Textual { head } => usize::from(head) + writing_sizes::text_count(raw),
    }
}
