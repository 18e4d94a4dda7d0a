// What a header decides of an item before its own units have come (02 f), and the unit behind it: whether there is a second header unit, and
// the number of a refusal, 0 for none.
#![tactic(auto)]

ghost use Rattle.std.specs.Prelude.{◌≡◌, ◌<◌};
ghost use Rattle.format.specs.Registry.{header_units};
ghost use Rattle.format.specs.Judging.{has_lead, zero_bits};
ghost use Rattle.format.specs.Texts.{text_right};
ghost use Rattle.format.specs.Report.{verdict_byte};
ghost use Rattle.pieces.specs.Headers.{all_known, is_long, group_number, head_number, lead_of, opens_text, value_number};

use format::{Kind, Opening, Verdict};

// ---- a second header unit

fn all_known(q: [u8; 4]) -> bool
    ensures { result ≡ all_known q }
{
    if 64 <= q[0] {
        return false;
    }
    if 64 <= q[1] {
        return false;
    }
    if 64 <= q[2] {
        return false;
    }
    q[3] < 64
}

fn header_units(op: Opening) -> usize
    ensures { result ≡ header_units op }
{
    match op {
        Opening::Unknown => 0,
        Opening::Short { kind: _, size: _ } => 1,
        Opening::Long { kind: _, size: _ } => 2,
        Opening::LargeVariable { letter: _, lead: _ } => 2,
        Opening::LargeGroup {
            letter: _,
            digit: _,
        } => 2,
        Opening::Version => 2,
    }
}

// Whether an item that opens with this unit, by the table that is asked, with so many units to the enclosing end, has a second one.
pub fn is_long(indexed: bool, q: [u8; 4], room: usize) -> bool
    ensures { result ≡ is_long indexed q room }
{
    if room <= 1 {
        return false;
    }
    if !all_known(q) {
        return false;
    }
    header_units(registry::opening_by(indexed, q)) == 2
}

// ---- numbers

fn number_of(v: Verdict) -> u8
    ensures { result ≡ verdict_byte v }
{
    match v {
        Verdict::Accepted => 0,
        Verdict::Refused { number, place: _ } => number,
    }
}

// 11 or 18 of a group that stands within so many, with a header of h units, of n in all.
pub fn group_number(kind: Kind, depth: usize, h: usize, n: usize) -> u8
    ensures { result ≡ group_number kind depth h n }
{
    match kind {
        Kind::Fixed(_) => 0,
        Kind::Variable {
            letter: _,
            lead: _,
            count: _,
        } => 0,
        Kind::Group { letter: _ } => {
            if judging::MAX_DEPTH <= depth {
                return 11;
            }
            let units = judging_header::units_behind(n, h);
            if judging_header::is_shortest(h, units) {
                0
            } else {
                18
            }
        }
        Kind::Genus => 0,
        Kind::Indexed(_) => 0,
    }
}

fn has_lead(lead: u8, count: usize) -> bool
    ensures { result ≡ has_lead lead count }
{
    if 0 < lead { 0 < count } else { true }
}

// What the header decides of a primitive, by its sextets, 0 behind them.
pub fn head_number(kind: Kind, h: usize, cs: [u8; 12]) -> u8
    ensures { result ≡ head_number kind h cs }
{
    match kind {
        Kind::Fixed(c) => number_of(judging_fixed::fixed_checks(c, cs)),
        Kind::Variable {
            letter: _,
            lead,
            count,
        } => {
            if !judging_header::is_shortest(h, count) {
                return 18;
            }
            if has_lead(lead, count) { 0 } else { 9 }
        }
        Kind::Group { letter: _ } => 0,
        Kind::Genus => 0,
        Kind::Indexed(c) => number_of(judging_indexed::indexed_checks(c, cs)),
    }
}

// ---- the unit behind the header

pub fn lead_of(kind: Kind) -> u8
    ensures { result ≡ lead_of kind }
{
    match kind {
        Kind::Fixed(_) => 0,
        Kind::Variable {
            letter: _,
            lead,
            count: _,
        } => lead,
        Kind::Group { letter: _ } => 0,
        Kind::Genus => 0,
        Kind::Indexed(_) => 0,
    }
}

pub fn opens_text(kind: Kind) -> bool
    ensures { result ≡ opens_text kind }
{
    match kind {
        Kind::Fixed(_) => false,
        Kind::Variable {
            letter,
            lead: _,
            count: _,
        } => letter == 0,
        Kind::Group { letter: _ } => false,
        Kind::Genus => false,
        Kind::Indexed(_) => false,
    }
}
