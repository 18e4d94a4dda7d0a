// Reading and writing single indexed items for C and Rust, on numbers and byte slices: a number, 0 for accepted, and what else there is to
// say behind `answer`. Nothing is decided here.
#![tactic(auto)]

ghost use Rattle.std.specs.Prelude.{◌≡◌, length};
ghost use Rattle.format.specs.Indexed.{read_indexed_text, indexed_left, read_indexed_binary, write_indexed_text, text_indexed_left, write_indexed_binary, binary_indexed_left};
ghost use Rattle.exports_indexed.specs.Answers.{text_number, text_value, text_info, binary_number, binary_value, binary_info, index_code_from};
ghost use Rattle.exports_values.specs.Answers.{text_written_number, text_written_value, binary_written_number, binary_written_value};

use exports_indexed::INDEXED;
use format::{BinaryOffset, IndexCode, Refusal, TextOffset};

// out: the raw value; answer: its length, or the place in the text. A refused call writes to no other place.
pub fn read_indexed_text(
    stream: &[u8],
    at: usize,
    out: &mut [u8],
    info: &mut [usize; INDEXED],
    answer: &mut usize,
) -> u8
    ensures value { result ≡ text_number (read_indexed_text stream.now at (length out.old)) }
    ensures answer_after { answer.new ≡ text_value (read_indexed_text stream.now at (length out.old)) }
    ensures out_after { out.new ≡ indexed_left (read_indexed_text stream.now at (length out.old)) stream.now at out.old }
    ensures info_after { info.new ≡ text_info (read_indexed_text stream.now at (length out.old)) info.old }
{
    let read = indexed_text::read_indexed_text(stream, TextOffset(at), out);
    match read {
        Ok(p) => {
            let numbers = exports_indexed::info_of(p);
            *info = numbers;
            *answer = p.raw;
            0
        }
        Err(Refusal { number, place }) => {
            *answer = place.0;
            number
        }
    }
}

// The raw value lies in the stream, where info says. answer: its length, or the place in the binary.
pub fn read_indexed_binary(
    stream: &[u8],
    at: usize,
    info: &mut [usize; INDEXED],
    answer: &mut usize,
) -> u8
    ensures value { result ≡ binary_number (read_indexed_binary stream.now at) }
    ensures answer_after { answer.new ≡ binary_value (read_indexed_binary stream.now at) }
    ensures info_after { info.new ≡ binary_info (read_indexed_binary stream.now at) info.old }
{
    let read = indexed_binary::read_indexed_binary(stream, BinaryOffset(at));
    match read {
        Ok(p) => {
            let numbers = exports_indexed::info_of(p);
            *info = numbers;
            *answer = p.raw;
            0
        }
        Err(Refusal { number, place }) => {
            *answer = place.0;
            number
        }
    }
}

// answer: the length written, or 0, the place of every refusal.
pub fn write_indexed_text(
    selector: u8,
    letter: u8,
    index: usize,
    ondex: usize,
    raw: &[u8],
    out: &mut [u8],
    answer: &mut usize,
) -> u8
    ensures value { result ≡ text_written_number (write_indexed_text (index_code_from selector letter) index ondex raw.now (length out.old)) }
    ensures answer_after { answer.new ≡ text_written_value (write_indexed_text (index_code_from selector letter) index ondex raw.now (length out.old)) }
    ensures out_after { out.new ≡ text_indexed_left (write_indexed_text (index_code_from selector letter) index ondex raw.now (length out.old)) (index_code_from selector letter) index ondex raw.now out.old }
{
    let code = IndexCode { selector, letter };
    let outcome = indexed_writing::write_indexed_text(code, index, ondex, raw, out);
    exports_written::text_written(outcome, answer)
}

// answer: the length written, or 0, the place of every refusal.
pub fn write_indexed_binary(
    selector: u8,
    letter: u8,
    index: usize,
    ondex: usize,
    raw: &[u8],
    out: &mut [u8],
    answer: &mut usize,
) -> u8
    ensures value { result ≡ binary_written_number (write_indexed_binary (index_code_from selector letter) index ondex raw.now (length out.old)) }
    ensures answer_after { answer.new ≡ binary_written_value (write_indexed_binary (index_code_from selector letter) index ondex raw.now (length out.old)) }
    ensures out_after { out.new ≡ binary_indexed_left (write_indexed_binary (index_code_from selector letter) index ondex raw.now (length out.old)) (index_code_from selector letter) index ondex raw.now out.old }
{
    let code = IndexCode { selector, letter };
    let outcome = indexed_writing::write_indexed_binary(code, index, ondex, raw, out);
    exports_written::binary_written(outcome, answer)
}
