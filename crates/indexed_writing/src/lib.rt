// Writing a single indexed item as text or as binary into a lent buffer: 6, 12, 15, 3. A refused call writes nothing, exact room suffices,
// and bytes behind the item stay.
#![tactic(auto)]

ghost use Rattle.std.specs.Prelude.{◌≡◌, ◌/◌, length};
ghost use Rattle.format.specs.Writing.{text_outcome, binary_outcome};
ghost use Rattle.format.specs.Indexed.{write_indexed_text, text_indexed_left, write_indexed_binary, binary_indexed_left};
ghost use Rattle.writing_raw.specs.Item.{Sized, raw_item, room_for, binary_in, text_in};
ghost use Rattle.indexed_head.specs.Heads.{head_bytes};

use format::{BinaryOffset, IndexCode, IndexRow, Refusal, TextOffset};

// ---- an item of a row, where there is room: 3. Of a raw value that the row does not hold nothing is said.

fn binary_row(
    c: IndexRow,
    index: usize,
    ondex: usize,
    raw: &[u8],
    out: &mut [u8],
) -> Result<BinaryOffset, Refusal<usize>>
    ensures value { Sized (length raw.now) (c.size / 4) → result ≡ binary_outcome (room_for 3 (c.size / 4) (length out.old)) }
    ensures out_after { Sized (length raw.now) (c.size / 4) → out.new ≡ binary_in (room_for 3 (c.size / 4) (length out.old)) (raw_item (c.size / 4) (head_bytes c index ondex) raw.now) out.old }
{
    let units = indexed_fit::units_of(c);
    let head = indexed_head::head_bytes(c, index, ondex);
    writing_raw::binary_item(units, head, raw, out)
}

fn text_row(
    c: IndexRow,
    index: usize,
    ondex: usize,
    raw: &[u8],
    out: &mut [u8],
) -> Result<TextOffset, Refusal<usize>>
    ensures value { Sized (length raw.now) (c.size / 4) → result ≡ text_outcome (room_for 4 (c.size / 4) (length out.old)) }
    ensures out_after { Sized (length raw.now) (c.size / 4) → out.new ≡ text_in (room_for 4 (c.size / 4) (length out.old)) (raw_item (c.size / 4) (head_bytes c index ondex) raw.now) out.old }
{
    let units = indexed_fit::units_of(c);
    let head = indexed_head::head_bytes(c, index, ondex);
    writing_raw::text_item(units, head, raw, out)
}

// ---- the calls: 6, 12, 15, 3

// An indexed item as binary, from the buffer's start. A refusal's place is 0.
pub fn write_indexed_binary(
    code: IndexCode,
    index: usize,
    ondex: usize,
    raw: &[u8],
    out: &mut [u8],
) -> Result<BinaryOffset, Refusal<usize>>
    ensures value { result ≡ write_indexed_binary code index ondex raw.now (length out.old) }
    ensures out_after { out.new ≡ binary_indexed_left result code index ondex raw.now out.old }
{
    let c = indexed_code::plan(code, index, ondex, raw.len())?;
    binary_row(c, index, ondex, raw, out)
}

// An indexed item as text, from the buffer's start: the text of the binary, with no buffer between.
pub fn write_indexed_text(
    code: IndexCode,
    index: usize,
    ondex: usize,
    raw: &[u8],
    out: &mut [u8],
) -> Result<TextOffset, Refusal<usize>>
    ensures value { result ≡ write_indexed_text code index ondex raw.now (length out.old) }
    ensures out_after { out.new ≡ text_indexed_left result code index ondex raw.now out.old }
{
    // No `?`: the refusal's line is the one that the edit `place_of_refusal` makes wrong.
    match indexed_code::plan(code, index, ondex, raw.len()) {
        Ok(row) => text_row(row, index, ondex, raw, out),
        Err(why) => Err(why),
    }
}
