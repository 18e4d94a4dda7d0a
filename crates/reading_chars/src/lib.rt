// The text of a binary's item, copied out: the item's characters from one of them on, which may stand within a unit. What is said holds of
// whole triplets within the limit; where there is no room nothing is written.
#![tactic(auto)]

ghost use Rattle.std.specs.Prelude.{◌≡◌, ◌++◌, ◌+◌, ◌-◌, ◌*◌, ◌<◌, ◌≤◌, ◌/◌, ◌%◌, length, take, drop};
ghost use Rattle.format.specs.Units.{quadlet_of};
ghost use Rattle.format.specs.Conversion.{to_text};
ghost use Rattle.reading_chars.specs.Chars.{chars_into};

use format::TextOffset;

fn quadlet_at(item: &[u8], at: usize) -> [u8; 4]
    requires { at + 3 ≤ length item.now }
    ensures { result ≡ quadlet_of (take 3 (drop at item.now)) }
{
    let characters = alphabet::characters();
    units::quadlet(&characters, [item[at], item[at + 1], item[at + 2]])
}

// The last characters of the unit at a byte.
fn put_unit(item: &[u8], at: usize, within: usize, out: &mut [u8])
    requires { (within < 4) × (at + 3 ≤ length item.now) × (4 - within ≤ length out.old) }
    ensures { out.new ≡ drop within (quadlet_of (take 3 (drop at item.now))) ++ drop (4 - within) out.old }
{
    let q = quadlet_at(item, at);
    out[..4 - within].copy_from_slice(&q[within..]);
}

// The last characters of a unit, and the units behind it.
fn copy_from(item: &[u8], unit: usize, within: usize, out: &mut [u8])
    requires { (within < 4) × (unit * 3 + 3 ≤ length item.now) × (length item.now % 3 ≡ 0) × (length item.now ≤ 3145728) × (length item.now / 3 * 4 - (unit * 4 + within) ≤ length out.old) }
    ensures { out.new ≡ chars_into item.now (unit * 4 + within) out.old }
{
    let at = unit * 3;
    put_unit(item, at, within, out);
    let from = at + 3;
    let to = 4 - within;
    let _ = convert::binary_to_text(&item[from..], &mut out[to..]);
}

// The item's characters from one of them on.
pub fn copy_chars(item: &[u8], start: TextOffset, out: &mut [u8])
    ensures { length item.now % 3 ≡ 0 → length item.now ≤ 3145728 → length item.now / 3 * 4 - start.0 ≤ length out.old → out.new ≡ chars_into item.now start.0 out.old }
{
    let from = start.0;
    if 3145728 < item.len() {
        return;
    }
    if item.len() % 3 != 0 {
        return;
    }
    let size = item.len() / 3 * 4;
    if size <= from {
        return;
    }
    if out.len() < size - from {
        return;
    }
    copy_from(item, from / 4, from % 4, out);
}
