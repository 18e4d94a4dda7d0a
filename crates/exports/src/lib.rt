// The public calls for C and Rust, on numbers and byte slices: a number, 0 for accepted, and what else there is to say behind
// `answer`. Nothing is decided here.
#![tactic(auto)]

ghost use Rattle.std.specs.Prelude.{◌≡◌, length};
ghost use Rattle.base.specs.Pick.{pick};
ghost use Rattle.format.specs.Conversion.{text_to_binary, to_binary_number, to_binary_value, binary_left, binary_to_text, to_text_number, to_text_value, text_left};
ghost use Rattle.format.specs.Units.{text, binary};
ghost use Rattle.format.specs.Reading.{read_text, value_left, read_binary, chars_left};
ghost use Rattle.format.specs.Writing.{write_text, text_item_left, write_binary, binary_item_left};
ghost use Rattle.format.specs.Indexed.{read_indexed_text, indexed_left, read_indexed_binary};
ghost use Rattle.format.specs.Indexed.{write_indexed_text, text_indexed_left, write_indexed_binary, binary_indexed_left};
ghost use Rattle.walk_state.specs.Walking.{text_step, binary_step};
ghost use Rattle.exports_values.specs.Answers.{code_from};
ghost use Rattle.exports_values.specs.Answers.{text_found_number, text_found_value, text_tag_left, text_info_left};
ghost use Rattle.exports_values.specs.Answers.{binary_found_number, binary_found_value, binary_tag_left, binary_info_left};
ghost use Rattle.exports_values.specs.Answers.{text_written_number, text_written_value, binary_written_number, binary_written_value};
ghost use Rattle.exports_indexed.specs.Answers.{index_code_from, text_number, text_value, text_info, binary_number, binary_value, binary_info};
ghost use Rattle.format.specs.Report.{report_answer, report_number, report_value, report_left};
ghost use Rattle.mixed.specs.Mixed.{mixed_answer, mixed_left};
ghost use Rattle.second_claims.specs.Second.{second_binary, work_left};
ghost use Rattle.comparison.specs.Comparing.{compared};
ghost use Rattle.passing.specs.Passing.{passed_in};
ghost use Rattle.exports_values.specs.Counts.{counts_of};
ghost use Rattle.exports_values.specs.Lent.{walk_of};
ghost use Rattle.exports_values.specs.Lent.{text_step_number, text_step_value, text_yield_left, text_state_left};
ghost use Rattle.exports_values.specs.Lent.{binary_step_number, binary_step_value, binary_yield_left, binary_state_left};
ghost use Rattle.instalments.specs.Instalments.{walk_on};
ghost use Rattle.instalments.specs.Numbers.{pause_number, pause_place};
ghost use Rattle.exports_lent.specs.Answers.{state_behind};
ghost use Rattle.format.specs.declared.Form.TheVariants.{Text, Binary};
ghost use Rattle.pieces.specs.Calls.{feed, items_left, refusals_left, finish, remainder_left};
ghost use Rattle.exports_pieces_state.specs.Numbers.{pieces_in};
ghost use Rattle.exports_pieces.specs.Answers.{given_number, given_lengths, fed_numbers, closing_number, closing_length, ended_numbers};
ghost use Rattle.groups.specs.Grouping.{grouped, group_left};
ghost use Rattle.groups.specs.Numbers.{grouped_number, grouped_value};

use exports_indexed::INDEXED;
use exports_pieces_state::PIECES;
use exports_values::{INFO, STATE};
use format::{BinaryOffset, Form, Refusal, TextOffset};
use walk_state::Found;

// answer: the length written, or the place in the text.
pub fn cesr_text_to_binary(src: &[u8], dst: &mut [u8], answer: &mut usize) -> u8
    ensures value { result ≡ to_binary_number (text_to_binary src.now (length dst.old)) }
    ensures answer_after { answer.new ≡ to_binary_value (text_to_binary src.now (length dst.old)) }
    ensures dst_after { dst.new ≡ binary_left (text_to_binary src.now (length dst.old)) src.now dst.old }
{
    let outcome = convert::text_to_binary(src, dst);
    exports_answers::to_binary(outcome, answer)
}

// answer: the length written, or the place in the binary.
pub fn cesr_binary_to_text(src: &[u8], dst: &mut [u8], answer: &mut usize) -> u8
    ensures value { result ≡ to_text_number (binary_to_text src.now (length dst.old)) }
    ensures answer_after { answer.new ≡ to_text_value (binary_to_text src.now (length dst.old)) }
    ensures dst_after { dst.new ≡ text_left (binary_to_text src.now (length dst.old)) src.now dst.old }
{
    let outcome = convert::binary_to_text(src, dst);
    exports_answers::to_text(outcome, answer)
}

// answer: the length of the report, or 0 for 1 and 3.
pub fn cesr_report_text(stream: &[u8], out: &mut [u8], answer: &mut usize) -> u8
    ensures value { result ≡ report_number (report_answer text stream.now (length out.old)) }
    ensures answer_after { answer.new ≡ report_value (report_answer text stream.now (length out.old)) }
    ensures out_after { out.new ≡ report_left (report_answer text stream.now (length out.old)) text stream.now out.old }
{
    let outcome = report::report_text(stream, out);
    exports_answers::reported(outcome, answer)
}

// answer: the length of the report, or 0 for 1 and 3.
pub fn cesr_report_binary(stream: &[u8], out: &mut [u8], answer: &mut usize) -> u8
    ensures value { result ≡ report_number (report_answer binary stream.now (length out.old)) }
    ensures answer_after { answer.new ≡ report_value (report_answer binary stream.now (length out.old)) }
    ensures out_after { out.new ≡ report_left (report_answer binary stream.now (length out.old)) binary stream.now out.old }
{
    let outcome = report::report_binary(stream, out);
    exports_answers::reported(outcome, answer)
}

// answer: the length of the report, or 0 for 1 and 3.
pub fn cesr_report_mixed(stream: &[u8], out: &mut [u8], answer: &mut usize) -> u8
    ensures value { result ≡ report_number (mixed_answer stream.now (length out.old)) }
    ensures answer_after { answer.new ≡ report_value (mixed_answer stream.now (length out.old)) }
    ensures out_after { out.new ≡ mixed_left (mixed_answer stream.now (length out.old)) stream.now out.old }
{
    let outcome = mixed_report::report_mixed(stream, out);
    exports_answers::reported(outcome, answer)
}

// The same by the plain second judge. answer: the length of the report, or 0 for 1 and 3.
pub fn cesr_second_text(stream: &[u8], out: &mut [u8], answer: &mut usize) -> u8
    ensures value { result ≡ report_number (report_answer text stream.now (length out.old)) }
    ensures answer_after { answer.new ≡ report_value (report_answer text stream.now (length out.old)) }
    ensures out_after { out.new ≡ report_left (report_answer text stream.now (length out.old)) text stream.now out.old }
{
    let outcome = second_report::report_text(stream, out);
    exports_answers::reported(outcome, answer)
}

// Of a binary, with lent working room: 4 characters for each whole triplet.
pub fn cesr_second_binary(stream: &[u8], work: &mut [u8], out: &mut [u8], answer: &mut usize) -> u8
    ensures value { result ≡ report_number (second_binary stream.now (length work.old) (length out.old)) }
    ensures answer_after { answer.new ≡ report_value (second_binary stream.now (length work.old) (length out.old)) }
    ensures work_after { work.new ≡ work_left stream.now work.old }
    ensures out_after { out.new ≡ report_left (second_binary stream.now (length work.old) (length out.old)) binary stream.now out.old }
{
    let outcome = second_report::report_binary(stream, work, out);
    exports_answers::reported(outcome, answer)
}

// ---- reading and writing a primitive

// out: the value, raw bytes or a text; answer: its length, or the place in the text. A refused call writes to no other place.
pub fn cesr_read_text(
    stream: &[u8],
    at: usize,
    out: &mut [u8],
    tag: &mut [u8; 11],
    info: &mut [usize; INFO],
    answer: &mut usize,
) -> u8
    ensures value { result ≡ text_found_number (read_text stream.now at (length out.old)).found }
    ensures answer_after { answer.new ≡ text_found_value (read_text stream.now at (length out.old)).found }
    ensures out_after { out.new ≡ value_left (read_text stream.now at (length out.old)).found stream.now at out.old }
    ensures tag_after { tag.new ≡ text_tag_left (read_text stream.now at (length out.old)).found (read_text stream.now at (length out.old)).tag tag.old }
    ensures info_after { info.new ≡ text_info_left (read_text stream.now at (length out.old)).found info.old }
{
    let read = reading_text::read_text(stream, TextOffset(at), out);
    let found = read.found;
    let characters = read.tag;
    match found {
        Ok(p) => {
            let numbers = exports_codes::info_of(p);
            *tag = characters;
            *info = numbers;
            *answer = exports_codes::value_size(p);
            0
        }
        Err(Refusal { number, place }) => {
            *answer = place.0;
            number
        }
    }
}

// out: a text; any other value lies in the stream, where info says. answer: the value's length, or the place in the binary.
pub fn cesr_read_binary(
    stream: &[u8],
    at: usize,
    out: &mut [u8],
    tag: &mut [u8; 11],
    info: &mut [usize; INFO],
    answer: &mut usize,
) -> u8
    ensures value { result ≡ binary_found_number (read_binary stream.now at (length out.old)).found }
    ensures answer_after { answer.new ≡ binary_found_value (read_binary stream.now at (length out.old)).found }
    ensures out_after { out.new ≡ chars_left (read_binary stream.now at (length out.old)).found stream.now at out.old }
    ensures tag_after { tag.new ≡ binary_tag_left (read_binary stream.now at (length out.old)).found (read_binary stream.now at (length out.old)).tag tag.old }
    ensures info_after { info.new ≡ binary_info_left (read_binary stream.now at (length out.old)).found info.old }
{
    let read = reading_binary::read_binary(stream, BinaryOffset(at), out);
    let found = read.found;
    let characters = read.tag;
    match found {
        Ok(p) => {
            let numbers = exports_codes::info_of(p);
            *tag = characters;
            *info = numbers;
            *answer = exports_codes::value_size(p);
            0
        }
        Err(Refusal { number, place }) => {
            *answer = place.0;
            number
        }
    }
}

// answer: the length written, or the place: for 5 and 19 the index among the tag characters, or in a text.
pub fn cesr_write_text(
    chars: u8,
    letter: u8,
    tag: &[u8; 11],
    tags: usize,
    raw: &[u8],
    out: &mut [u8],
    answer: &mut usize,
) -> u8
    ensures value { result ≡ text_written_number (write_text (code_from chars letter) tag.now tags raw.now (length out.old)) }
    ensures answer_after { answer.new ≡ text_written_value (write_text (code_from chars letter) tag.now tags raw.now (length out.old)) }
    ensures out_after { out.new ≡ text_item_left (write_text (code_from chars letter) tag.now tags raw.now (length out.old)) (code_from chars letter) tag.now tags raw.now out.old }
{
    let code = exports_codes::code_from(chars, letter);
    let characters = *tag;
    let outcome = writing::write_text(code, characters, tags, raw, out);
    exports_written::text_written(outcome, answer)
}

// answer: the length written, or the place: for 5 and 19 the index among the tag characters, or in a text.
pub fn cesr_write_binary(
    chars: u8,
    letter: u8,
    tag: &[u8; 11],
    tags: usize,
    raw: &[u8],
    out: &mut [u8],
    answer: &mut usize,
) -> u8
    ensures value { result ≡ binary_written_number (write_binary (code_from chars letter) tag.now tags raw.now (length out.old)) }
    ensures answer_after { answer.new ≡ binary_written_value (write_binary (code_from chars letter) tag.now tags raw.now (length out.old)) }
    ensures out_after { out.new ≡ binary_item_left (write_binary (code_from chars letter) tag.now tags raw.now (length out.old)) (code_from chars letter) tag.now tags raw.now out.old }
{
    let code = exports_codes::code_from(chars, letter);
    let characters = *tag;
    let outcome = writing::write_binary(code, characters, tags, raw, out);
    exports_written::binary_written(outcome, answer)
}

// ---- reading and writing an indexed item

// out: the raw value; answer: its length, or the place in the text. A refused call writes to no other place.
pub fn cesr_read_indexed_text(
    stream: &[u8],
    at: usize,
    out: &mut [u8],
    info: &mut [usize; INDEXED],
    answer: &mut usize,
) -> u8
    ensures value { result ≡ text_number (read_indexed_text stream.now at (length out.old)) }
    ensures answer_after { answer.new ≡ text_value (read_indexed_text stream.now at (length out.old)) }
    ensures out_after { out.new ≡ indexed_left (read_indexed_text stream.now at (length out.old)) stream.now at out.old }
    ensures info_after { info.new ≡ text_info (read_indexed_text stream.now at (length out.old)) info.old }
{
    exports_indexed_calls::read_indexed_text(stream, at, out, info, answer)
}

// The raw value lies in the stream, where info says. answer: its length, or the place in the binary.
pub fn cesr_read_indexed_binary(
    stream: &[u8],
    at: usize,
    info: &mut [usize; INDEXED],
    answer: &mut usize,
) -> u8
    ensures value { result ≡ binary_number (read_indexed_binary stream.now at) }
    ensures answer_after { answer.new ≡ binary_value (read_indexed_binary stream.now at) }
    ensures info_after { info.new ≡ binary_info (read_indexed_binary stream.now at) info.old }
{
    exports_indexed_calls::read_indexed_binary(stream, at, info, answer)
}

// answer: the length written, or 0, the place of every refusal.
pub fn cesr_write_indexed_text(
    selector: u8,
    letter: u8,
    index: usize,
    ondex: usize,
    raw: &[u8],
    out: &mut [u8],
    answer: &mut usize,
) -> u8
    ensures value { result ≡ text_written_number (write_indexed_text (index_code_from selector letter) index ondex raw.now (length out.old)) }
    ensures answer_after { answer.new ≡ text_written_value (write_indexed_text (index_code_from selector letter) index ondex raw.now (length out.old)) }
    ensures out_after { out.new ≡ text_indexed_left (write_indexed_text (index_code_from selector letter) index ondex raw.now (length out.old)) (index_code_from selector letter) index ondex raw.now out.old }
{
    exports_indexed_calls::write_indexed_text(selector, letter, index, ondex, raw, out, answer)
}

// answer: the length written, or 0, the place of every refusal.
pub fn cesr_write_indexed_binary(
    selector: u8,
    letter: u8,
    index: usize,
    ondex: usize,
    raw: &[u8],
    out: &mut [u8],
    answer: &mut usize,
) -> u8
    ensures value { result ≡ binary_written_number (write_indexed_binary (index_code_from selector letter) index ondex raw.now (length out.old)) }
    ensures answer_after { answer.new ≡ binary_written_value (write_indexed_binary (index_code_from selector letter) index ondex raw.now (length out.old)) }
    ensures out_after { out.new ≡ binary_indexed_left (write_indexed_binary (index_code_from selector letter) index ondex raw.now (length out.old)) (index_code_from selector letter) index ondex raw.now out.old }
{
    exports_indexed_calls::write_indexed_binary(selector, letter, index, ondex, raw, out, answer)
}

// ---- the walk over a lent state

// answer: the place in the text of a refusal, else 0. The state and the item are written only where an item was found.
pub fn cesr_walk_text(
    stream: &[u8],
    state: &mut [usize; STATE],
    item: &mut [usize; 6],
    answer: &mut usize,
) -> u8
    ensures value { result ≡ text_step_number (text_step stream.now (walk_of state.old)).found }
    ensures answer_after { answer.new ≡ text_step_value (text_step stream.now (walk_of state.old)).found }
    ensures item_after { item.new ≡ text_yield_left (text_step stream.now (walk_of state.old)).found item.old }
    ensures state_after { state.new ≡ text_state_left (text_step stream.now (walk_of state.old)).found (text_step stream.now (walk_of state.old)).next state.old }
{
    let p = exports_place::place_of(state);
    let step = walk::move_in(state, p, Form::Text, stream);
    let next = step.place;
    let found = step.found;
    match found {
        Found::Item {
            offset,
            size,
            depth,
            kind,
            head,
        } => {
            let row = exports_item::item_of(offset, size, depth, kind, head);
            exports_place::put_place(state, next);
            *item = row;
            *answer = 0;
            0
        }
        Found::Refused { number, place } => {
            *answer = place;
            number
        }
        Found::End => {
            *answer = 0;
            255
        }
    }
}

// answer: the place in the binary of a refusal, else 0. The state and the item are written only where an item was found.
pub fn cesr_walk_binary(
    stream: &[u8],
    state: &mut [usize; STATE],
    item: &mut [usize; 6],
    answer: &mut usize,
) -> u8
    ensures value { result ≡ binary_step_number (binary_step stream.now (walk_of state.old)).found }
    ensures answer_after { answer.new ≡ binary_step_value (binary_step stream.now (walk_of state.old)).found }
    ensures item_after { item.new ≡ binary_yield_left (binary_step stream.now (walk_of state.old)).found item.old }
    ensures state_after { state.new ≡ binary_state_left (binary_step stream.now (walk_of state.old)).found (binary_step stream.now (walk_of state.old)).next state.old }
{
    let p = exports_place::place_of(state);
    let step = walk::move_in(state, p, Form::Binary, stream);
    let next = step.place;
    let found = step.found;
    match found {
        Found::Item {
            offset,
            size,
            depth,
            kind,
            head,
        } => {
            let row = exports_item::item_of(offset, size, depth, kind, head);
            exports_place::put_place(state, next);
            *item = row;
            *answer = 0;
            0
        }
        Found::Refused { number, place } => {
            *answer = place;
            number
        }
        Found::End => {
            *answer = 0;
            255
        }
    }
}

// At most so many items of a text from the state on; items: how many were taken; answer: the place of a refusal, else 0. With no item the state
// stays as it was.
pub fn cesr_walk_on_text(
    stream: &[u8],
    state: &mut [usize; STATE],
    budget: usize,
    items: &mut usize,
    answer: &mut usize,
) -> u8
    ensures value { result ≡ pause_number (walk_on text stream.now budget (walk_of state.old)).pause }
    ensures answer_after { answer.new ≡ pause_place (walk_on text stream.now budget (walk_of state.old)).pause }
    ensures after { items.new ≡ (walk_on text stream.now budget (walk_of state.old)).items }
    ensures state_after { state.new ≡ state_behind (walk_on text stream.now budget (walk_of state.old)) state.old }
{
    exports_instalments::walk_on_text(stream, state, budget, items, answer)
}

// At most so many items of a binary from the state on; items: how many were taken; answer: the place of a refusal, else 0. With no item the state
// stays as it was.
pub fn cesr_walk_on_binary(
    stream: &[u8],
    state: &mut [usize; STATE],
    budget: usize,
    items: &mut usize,
    answer: &mut usize,
) -> u8
    ensures value { result ≡ pause_number (walk_on binary stream.now budget (walk_of state.old)).pause }
    ensures answer_after { answer.new ≡ pause_place (walk_on binary stream.now budget (walk_of state.old)).pause }
    ensures after { items.new ≡ (walk_on binary stream.now budget (walk_of state.old)).items }
    ensures state_after { state.new ≡ state_behind (walk_on binary stream.now budget (walk_of state.old)) state.old }
{
    exports_instalments::walk_on_binary(stream, state, budget, items, answer)
}

// ---- streams in pieces

// A piece of a text. state: PIECES numbers; given: the lengths written to items and to refusals, or 0 and 0.
pub fn cesr_feed_text(
    state: &mut [usize; PIECES],
    piece: &[u8],
    items: &mut [u8],
    refusals: &mut [u8],
    given: &mut [usize; 2],
) -> u8
    ensures value { result ≡ given_number (feed text (pieces_in state.old) piece.now (length items.old) (length refusals.old)).given }
    ensures given_after { given.new ≡ given_lengths (feed text (pieces_in state.old) piece.now (length items.old) (length refusals.old)).given }
    ensures state_after { state.new ≡ fed_numbers (feed text (pieces_in state.old) piece.now (length items.old) (length refusals.old)).given (feed text (pieces_in state.old) piece.now (length items.old) (length refusals.old)).next state.old }
    ensures state_after_2 { pieces_in state.new ≡ (feed text (pieces_in state.old) piece.now (length items.old) (length refusals.old)).next }
    ensures after { items.new ≡ items_left (feed text (pieces_in state.old) piece.now (length items.old) (length refusals.old)).given text (pieces_in state.old) piece.now items.old }
    ensures refusals_after { refusals.new ≡ refusals_left (feed text (pieces_in state.old) piece.now (length items.old) (length refusals.old)).given text (pieces_in state.old) piece.now refusals.old }
{
    exports_pieces::feed_text(state, piece, items, refusals, given)
}

// The same of a binary.
pub fn cesr_feed_binary(
    state: &mut [usize; PIECES],
    piece: &[u8],
    items: &mut [u8],
    refusals: &mut [u8],
    given: &mut [usize; 2],
) -> u8
    ensures value { result ≡ given_number (feed binary (pieces_in state.old) piece.now (length items.old) (length refusals.old)).given }
    ensures given_after { given.new ≡ given_lengths (feed binary (pieces_in state.old) piece.now (length items.old) (length refusals.old)).given }
    ensures state_after { state.new ≡ fed_numbers (feed binary (pieces_in state.old) piece.now (length items.old) (length refusals.old)).given (feed binary (pieces_in state.old) piece.now (length items.old) (length refusals.old)).next state.old }
    ensures state_after_2 { pieces_in state.new ≡ (feed binary (pieces_in state.old) piece.now (length items.old) (length refusals.old)).next }
    ensures after { items.new ≡ items_left (feed binary (pieces_in state.old) piece.now (length items.old) (length refusals.old)).given binary (pieces_in state.old) piece.now items.old }
    ensures refusals_after { refusals.new ≡ refusals_left (feed binary (pieces_in state.old) piece.now (length items.old) (length refusals.old)).given binary (pieces_in state.old) piece.now refusals.old }
{
    exports_pieces::feed_binary(state, piece, items, refusals, given)
}

// The end of a text. answer: the length of the remainder's row, or 0.
pub fn cesr_end_text(state: &mut [usize; PIECES], out: &mut [u8], answer: &mut usize) -> u8
    ensures value { result ≡ closing_number (finish text (pieces_in state.old) (length out.old)).closing }
    ensures answer_after { answer.new ≡ closing_length (finish text (pieces_in state.old) (length out.old)).closing }
    ensures state_after { state.new ≡ ended_numbers (finish text (pieces_in state.old) (length out.old)).closing (finish text (pieces_in state.old) (length out.old)).next state.old }
    ensures state_after_2 { pieces_in state.new ≡ (finish text (pieces_in state.old) (length out.old)).next }
    ensures out_after { out.new ≡ remainder_left (finish text (pieces_in state.old) (length out.old)).closing text (pieces_in state.old) out.old }
{
    exports_pieces::end_text(state, out, answer)
}

// The same of a binary.
pub fn cesr_end_binary(state: &mut [usize; PIECES], out: &mut [u8], answer: &mut usize) -> u8
    ensures value { result ≡ closing_number (finish binary (pieces_in state.old) (length out.old)).closing }
    ensures answer_after { answer.new ≡ closing_length (finish binary (pieces_in state.old) (length out.old)).closing }
    ensures state_after { state.new ≡ ended_numbers (finish binary (pieces_in state.old) (length out.old)).closing (finish binary (pieces_in state.old) (length out.old)).next state.old }
    ensures state_after_2 { pieces_in state.new ≡ (finish binary (pieces_in state.old) (length out.old)).next }
    ensures out_after { out.new ≡ remainder_left (finish binary (pieces_in state.old) (length out.old)).closing binary (pieces_in state.old) out.old }
{
    exports_pieces::end_binary(state, out, answer)
}

// ---- expected verdicts and a report

// answer: passed, failed, not reached, beyond, and 1 where the remainders agree; for 20 all are 0.
pub fn cesr_compare(expected: &[u8], report: &[u8], answer: &mut [usize; 5]) -> u8
    ensures value { result ≡ (compared expected.now report.now).number }
    ensures answer_after { answer.new ≡ counts_of (compared expected.now report.now) }
{
    let found = comparison::compare(expected, report);
    exports_counts::compared(found, answer)
}

// passed: 1 where the report is of a stream whose every byte lies in an accepted item, else 0; for 20 it is 0.
pub fn cesr_passed(report: &[u8], passed: &mut usize) -> u8
    ensures value { result ≡ (passed_in report.now).number }
    ensures passed_after { passed.new ≡ pick (passed_in report.now).passed 1 0 }
{
    let outcome = passing::passed(report);
    exports_counts::passed(outcome, passed)
}

// letter: a group's, as a character; len: the length of the body, which lies at the buffer's start. answer: the size of the group, or the
// place in the body.
pub fn cesr_group_text(letter: u8, len: usize, buf: &mut [u8], answer: &mut usize) -> u8
    ensures value { result ≡ grouped_number (grouped Text letter len buf.old) }
    ensures answer_after { answer.new ≡ grouped_value (grouped Text letter len buf.old) }
    ensures buf_after { buf.new ≡ group_left (grouped Text letter len buf.old) Text letter len buf.old }
{
    exports_groups::group_text(letter, len, buf, answer)
}

// The same in binary.
pub fn cesr_group_binary(letter: u8, len: usize, buf: &mut [u8], answer: &mut usize) -> u8
    ensures value { result ≡ grouped_number (grouped Binary letter len buf.old) }
    ensures answer_after { answer.new ≡ grouped_value (grouped Binary letter len buf.old) }
    ensures buf_after { buf.new ≡ group_left (grouped Binary letter len buf.old) Binary letter len buf.old }
{
    exports_groups::group_binary(letter, len, buf, answer)
}
