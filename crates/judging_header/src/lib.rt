// What an item's header decides alone, before a sextet behind it is looked at: a fixed code's zero bits and prepad, 18, the units
// behind a group's header, and a group's 11 and 18.
#![tactic(auto)]

ghost use Rattle.std.specs.Prelude.{◌≡◌, ◌-◌};
ghost use Rattle.format.specs.Registry.{zero_bits_of, prepad_of};
ghost use Rattle.format.specs.Judging.{is_shortest};
ghost use Rattle.judging_header.specs.Checks.{group_checks};

use format::{CodeRow, Verdict};

// ---- a fixed code's row: how many bits behind it are zero, and how many sextets stand before a tag

pub fn zeros_of(c: CodeRow) -> u32
    ensures { result ≡ zero_bits_of c }
{
    if c.tag == 0 {
        2 * u32::from(c.pad) + 8 * u32::from(c.lead)
    } else {
        0
    }
}

pub fn prepad_of(c: CodeRow) -> u32
    ensures { result ≡ prepad_of c }
{
    if c.tag == 0 {
        return 0;
    }
    let used = u32::from(c.chars) + u32::from(c.tag);
    u32::from(c.size).saturating_sub(used)
}

// ---- 18: a large header where a small one counts the units behind it

pub fn is_shortest(h: usize, count: usize) -> bool
    ensures { result ≡ is_shortest h count }
{
    if h == 1 { true } else { 4096 <= count }
}

// ---- 11 and 18 of a group

// The units behind a header of h.
pub fn units_behind(n: usize, h: usize) -> usize
    ensures { result ≡ n - h }
{
    n.saturating_sub(h)
}

pub fn group_checks(h: usize, units: usize, levels: usize) -> Verdict
    ensures { result ≡ group_checks h units levels }
{
    if levels == 0 {
        return Verdict::Refused {
            number: 11,
            place: 0,
        };
    }
    if !is_shortest(h, units) {
        return Verdict::Refused {
            number: 18,
            place: 0,
        };
    }
    Verdict::Accepted
}
