// An item that a raw value ends, put into its buffer: what stands before the raw value, as nine bytes at most, and the raw value. Of
// primitives and of indexed items alike. Exact room suffices, less is 3 and writes nothing, and bytes behind the item stay.
#![tactic(auto)]

ghost use Rattle.std.specs.Prelude.{◌≡◌, true, false, ◌++◌, ◌+◌, ◌*◌, ◌≤◌, ◌/◌, ◌%◌, length, take, drop};
ghost use Rattle.std.proofs.Math.Seq.{paste};
ghost use Rattle.format.specs.Conversion.{to_text};
ghost use Rattle.format.specs.Writing.{text_outcome, binary_outcome};
ghost use Rattle.writing_raw.specs.Item.{Sized, raw_item, room_for, binary_in, text_in};

use format::{BinaryOffset, Refusal, TextOffset};

// ---- the buffer: what stands before the raw value, and the raw value

fn put_binary(head: [u8; 9], start: usize, raw: &[u8], out: &mut [u8])
    requires { (start ≤ 9) × (start + length raw.now ≤ length out.old) }
    ensures { out.new ≡ take start head ++ raw.now ++ drop (start + length raw.now) out.old }
{
    out[..start].copy_from_slice(&head[..start]);
    out[start..start + raw.len()].copy_from_slice(raw);
}

// The raw bytes that fill the unit in which the others end.
fn join(head: [u8; 9], start: usize, raw: &[u8]) -> [u8; 9]
    requires { start + length raw.now % 3 ≤ 9 }
    ensures { result ≡ paste head start raw.now (length raw.now % 3) }
{
    let mut joined = head;
    let k = raw.len() % 3;
    joined[start..start + k].copy_from_slice(&raw[..k]);
    joined
}

// The first units, with the one in which the raw value begins, and then the raw value's own.
fn put_text(head: [u8; 9], start: usize, raw: &[u8], out: &mut [u8])
    requires { (start ≤ 9) × ((start + length raw.now) % 3 ≡ 0) × ((start + length raw.now) / 3 * 4 ≤ length out.old) × (length raw.now ≤ 3145728) }
    ensures { out.new ≡ to_text (take start head ++ raw.now) ++ drop ((start + length raw.now) / 3 * 4) out.old }
{
    let first = join(head, start, raw);
    let k = raw.len() % 3;
    let end = start + k;
    let at = end / 3 * 4;
    let _ = convert::binary_to_text(&first[..end], out);
    let _ = convert::binary_to_text(&raw[k..], &mut out[at..]);
}

// ---- an item of so many units, where there is room: 3. Of lengths that do not divide nothing is said

// A raw value ends the units, behind nine bytes at most.
fn is_sized(units: usize, raw: usize) -> bool
    ensures { (result ≡ true → Sized raw units) × (result ≡ false → Sized raw units → ⊥) }
{
    if units == 0 {
        return false;
    }
    if 1048576 < units {
        return false;
    }
    if units * 3 < raw {
        return false;
    }
    units * 3 <= raw + 9
}

pub fn binary_item(
    units: usize,
    head: [u8; 9],
    raw: &[u8],
    out: &mut [u8],
) -> Result<BinaryOffset, Refusal<usize>>
    ensures value { Sized (length raw.now) units → result ≡ binary_outcome (room_for 3 units (length out.old)) }
    ensures out_after { Sized (length raw.now) units → out.new ≡ binary_in (room_for 3 units (length out.old)) (raw_item units head raw.now) out.old }
{
    if !is_sized(units, raw.len()) {
        return Err(Refusal {
            number: 3,
            place: 0,
        });
    }
    let size = units * 3;
    if out.len() < size {
        return Err(Refusal {
            number: 3,
            place: 0,
        });
    }
    put_binary(head, size - raw.len(), raw, out);
    Ok(BinaryOffset(size))
}

pub fn text_item(
    units: usize,
    head: [u8; 9],
    raw: &[u8],
    out: &mut [u8],
) -> Result<TextOffset, Refusal<usize>>
    ensures value { Sized (length raw.now) units → result ≡ text_outcome (room_for 4 units (length out.old)) }
    ensures out_after { Sized (length raw.now) units → out.new ≡ text_in (room_for 4 units (length out.old)) (raw_item units head raw.now) out.old }
{
    if !is_sized(units, raw.len()) {
        return Err(Refusal {
            number: 3,
            place: 0,
        });
    }
    let chars = units * 4;
    if out.len() < chars {
        return Err(Refusal {
            number: 3,
            place: 0,
        });
    }
    put_text(head, units * 3 - raw.len(), raw, out);
    Ok(TextOffset(chars))
}
