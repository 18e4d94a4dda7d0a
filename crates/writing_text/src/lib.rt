// A text's item in a buffer of text: its header, and then its characters with their fill in front.
#![tactic(auto)]

ghost use Rattle.std.specs.Prelude.{◌≡◌, ◌++◌, ◌+◌, ◌*◌, ◌≤◌, length, take, drop};
ghost use Rattle.format.specs.Texts.{text_count};
ghost use Rattle.format.specs.Conversion.{to_text, first_stranger};
ghost use Rattle.format.specs.Writing.{text_outcome};
ghost use Rattle.writing_head.specs.Heads.{TextSized};
ghost use Rattle.writing_raw.specs.Item.{room_for, text_in};
ghost use Rattle.writing_fill.specs.Filled.{filled_text, text_item};

use format::{Refusal, TextOffset};

// ---- the characters and their fill

fn put_chars(chars: &[u8], out: &mut [u8])
    requires { 4 * text_count (length chars.now) ≤ length out.old }
    ensures { out.new ≡ filled_text chars.now ++ drop (4 * text_count (length chars.now)) out.old }
{
    let n = writing_sizes::fill_for(chars.len());
    out[..n].fill(b'A');
    out[n..n + chars.len()].copy_from_slice(chars);
}

// ---- behind the header

fn put_text(header: usize, head: [u8; 9], chars: &[u8], out: &mut [u8])
    requires { (header ≤ 2) × ((header + text_count (length chars.now)) * 4 ≤ length out.old) }
    ensures { out.new ≡ to_text (take (header * 3) head) ++ filled_text chars.now ++ drop (header * 4 + 4 * text_count (length chars.now)) out.old }
{
    let start = header * 3;
    let at = header * 4;
    let _ = convert::binary_to_text(&head[..start], out);
    put_chars(chars, &mut out[at..]);
}

// ---- the item, where there is room: 3. A header has two units at most; of any other nothing is said.

pub fn text_in_text(
    header: usize,
    head: [u8; 9],
    chars: &[u8],
    out: &mut [u8],
) -> Result<TextOffset, Refusal<usize>>
    ensures value { TextSized (length chars.now) header → result ≡ text_outcome (room_for 4 (header + text_count (length chars.now)) (length out.old)) }
    ensures out_after { TextSized (length chars.now) header → length chars.now ≤ first_stranger chars.now → out.new ≡ text_in (room_for 4 (header + text_count (length chars.now)) (length out.old)) (text_item header head chars.now) out.old }
{
    if 2 < header {
        return Err(Refusal {
            number: 3,
            place: 0,
        });
    }
    let size = (header + writing_sizes::text_count(chars.len())) * 4;
    if out.len() < size {
        return Err(Refusal {
            number: 3,
            place: 0,
        });
    }
    put_text(header, head, chars, out);
    Ok(TextOffset(size))
}
