// A text's item in a buffer of binary: its header, and then its characters with their fill in front. The fill and the first characters
// make a unit, and the other characters are whole units: there is no buffer between.
#![tactic(auto)]

ghost use Rattle.std.specs.Prelude.{◌≡◌, ◌++◌, ◌+◌, ◌*◌, ◌/◌, ◌%◌, ◌≤◌, length, take, drop};
ghost use Rattle.format.specs.Texts.{fill_for, text_count};
ghost use Rattle.format.specs.Conversion.{to_binary, first_stranger};
ghost use Rattle.format.specs.Writing.{binary_outcome};
ghost use Rattle.writing_head.specs.Heads.{TextSized};
ghost use Rattle.writing_raw.specs.Item.{room_for, binary_in};
ghost use Rattle.writing_fill.specs.Filled.{filled_text, text_item};

use format::{BinaryOffset, Refusal};

// ---- the characters and their fill

// The characters of the unit in which the fill ends, none without one.
fn first_size(chars: usize) -> usize
    ensures { (result ≡ fill_for chars + chars % 4) × (result ≤ 4) × (result / 4 * 3 ≤ 3 * text_count chars) }
{
    writing_sizes::fill_for(chars) + chars % 4
}

// That unit, if there is one, and then the others. Of characters that are outside the alphabet nothing is said.
fn put_packed(chars: &[u8], out: &mut [u8])
    requires { 3 * text_count (length chars.now) ≤ length out.old }
    ensures { length chars.now ≤ 4194304 → length chars.now ≤ first_stranger chars.now → out.new ≡ to_binary (filled_text chars.now) ++ drop (3 * text_count (length chars.now)) out.old }
{
    let first = writing_fill::first_unit(chars);
    let k = chars.len() % 4;
    let end = first_size(chars.len());
    let at = end / 4 * 3;
    let _ = convert::text_to_binary(&first[..end], out);
    let _ = convert::text_to_binary(&chars[k..], &mut out[at..]);
}

// ---- behind the header

fn put_binary(header: usize, head: [u8; 9], chars: &[u8], out: &mut [u8])
    requires { (header ≤ 2) × ((header + text_count (length chars.now)) * 3 ≤ length out.old) }
    ensures { length chars.now ≤ 4194304 → length chars.now ≤ first_stranger chars.now → out.new ≡ take (header * 3) head ++ to_binary (filled_text chars.now) ++ drop (header * 3 + 3 * text_count (length chars.now)) out.old }
{
    let start = header * 3;
    out[..start].copy_from_slice(&head[..start]);
    put_packed(chars, &mut out[start..]);
}

// ---- the item, where there is room: 3. A header has two units at most; of any other nothing is said.

pub fn text_in_binary(
    header: usize,
    head: [u8; 9],
    chars: &[u8],
    out: &mut [u8],
) -> Result<BinaryOffset, Refusal<usize>>
    ensures value { TextSized (length chars.now) header → result ≡ binary_outcome (room_for 3 (header + text_count (length chars.now)) (length out.old)) }
    ensures out_after { TextSized (length chars.now) header → length chars.now ≤ first_stranger chars.now → out.new ≡ binary_in (room_for 3 (header + text_count (length chars.now)) (length out.old)) (text_item header head chars.now) out.old }
{
    if 2 < header {
        return Err(Refusal {
            number: 3,
            place: 0,
        });
    }
    let size = (header + writing_sizes::text_count(chars.len())) * 3;
    if out.len() < size {
        return Err(Refusal {
            number: 3,
            place: 0,
        });
    }
    put_binary(header, head, chars, out);
    Ok(BinaryOffset(size))
}
