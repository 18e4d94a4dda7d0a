// The raw value of a text's item, copied out: the item's bytes from one of them on, which may stand within a unit. What is said holds
// of a text that is fit for conversion; where there is no room nothing is written.
#![tactic(auto)]

ghost use Rattle.std.specs.Prelude.{◌≡◌, ◌+◌, ◌-◌, ◌*◌, ◌≤◌, ◌/◌, ◌%◌, length, take, drop};
ghost use Rattle.format.specs.Units.{triplet_of};
ghost use Rattle.reading_raw.specs.Raw.{Fit, units_into, raw_into};

use format::{BinaryOffset, TextOffset};

// The bytes of a text's units from a character on, into a buffer from a place on.
fn copy_units(item: &[u8], from: usize, out: &mut [u8], to: usize)
    requires { (from ≤ length item.now) × (to ≤ length out.old) }
    ensures { Fit item.now → from % 4 ≡ 0 → to + (length item.now - from) / 4 * 3 ≤ length out.old → out.new ≡ units_into item.now from out.old to }
{
    let _ = convert::text_to_binary(&item[from..], &mut out[to..]);
}

fn triplet_at(item: &[u8], at: usize) -> [u8; 3]
    requires { at + 4 ≤ length item.now }
    ensures { result ≡ triplet_of (take 4 (drop at item.now)) }
{
    let values = alphabet::sextets();
    units::triplet(
        &values,
        [item[at], item[at + 1], item[at + 2], item[at + 3]],
    )
}

// From within the unit at a character on: its last bytes by themselves.
fn copy_within(item: &[u8], start: usize, unit: usize, out: &mut [u8])
    requires { (unit ≡ start / 3 * 4) × (start % 3 ≡ 0 → ⊥) × (start ≤ length item.now / 4 * 3) × (length item.now / 4 * 3 - start ≤ length out.old) }
    ensures { Fit item.now → out.new ≡ raw_into item.now start out.old }
{
    let t = triplet_at(item, unit);
    if start % 3 == 1 {
        out[0] = t[1];
        out[1] = t[2];
        copy_units(item, unit + 4, out, 2);
        return;
    }
    out[0] = t[2];
    copy_units(item, unit + 4, out, 1);
}

// From a byte on, which stands in the unit at a character.
fn copy_from(item: &[u8], start: usize, unit: usize, out: &mut [u8])
    requires { (unit ≡ start / 3 * 4) × (start ≤ length item.now / 4 * 3) × (length item.now / 4 * 3 - start ≤ length out.old) }
    ensures { Fit item.now → out.new ≡ raw_into item.now start out.old }
{
    if start % 3 == 0 {
        copy_units(item, unit, out, 0);
        return;
    }
    copy_within(item, start, unit, out);
}

// The item's bytes from one of its binary form on. None is past the longest stream.
pub fn copy_raw(item: &[u8], start: BinaryOffset, out: &mut [u8])
    ensures { Fit item.now → start.0 ≤ length item.now / 4 * 3 → length item.now / 4 * 3 - start.0 ≤ length out.old → out.new ≡ raw_into item.now start.0 out.old }
{
    let from = start.0;
    let size = offsets::in_binary(TextOffset(item.len())).0;
    if size < from {
        return;
    }
    if out.len() < size - from {
        return;
    }
    match offsets::in_text(start) {
        Some(unit) => copy_from(item, from, unit.0, out),
        None => {}
    }
}
