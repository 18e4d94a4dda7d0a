// Runs recorded calls and writes what each answered and left in its buffers. The records and the expected output were made by the
// independent program in rust/oracle and by RFC 4648; nothing here was.
//
// A record: the call (1 byte), the room lent (2 bytes, big-endian), the input's length (2), the input. A line of output: the call,
// the number (0: accepted), the length or place, and the whole lent buffer in hexadecimal, which held AA before. To read a primitive
// the input is the offset (2 bytes) and the stream, and the line goes on with the tag places and the seven numbers of the item. To write
// one it is chars, letter and number of tag characters (1 byte each), eleven tag places and the raw value or a text's characters. For a step of the walk it
// is the numbers of the state (1 byte each) and the stream; the line has the state and the item's numbers afterwards. A step is
// made again through a reader, call 11 for a text and 12 for a binary, and a third line counts the items that are left from there on.
// For an instalment, call 13 or 14, the room is the budget; the line has the items taken and the state afterwards. It is made again with
// the state by value, call 15 or 16.
// To compare (call 20), the input is the expectation file's length (2 bytes), the file and the report; the line has the five numbers.
// To read an indexed item (call 21 of a text, 22 of a binary) the input is as for a primitive, and the line goes on with the seven numbers of
// the item; for the buffer, which is not asked in a binary, it has the part where the raw value lies. To write one (23 to text, 24 to binary)
// the input is selector and letter (1 byte each), index and ondex (8 bytes each, big-endian) and the raw value.
#![tactic(auto)]

ghost use Rattle.std.specs.Prelude.{◌≡◌, ◌≤◌, length};
ghost use Rattle.exports_values.specs.Lent.{state_size};

use exports_values::{INDEXED, INFO, MARK, STATE};
use format::Refusal;
use instalments::Pause;
use recorded::number;
use std::io::Stdout;
use walk_state::{Found, Walk};

fn show(stdout: Stdout, call: u8, number: u8, value: usize, out: &[u8]) {
    recorded::show_answer(stdout, call, number, value);
    recorded::show_bytes(stdout, out);
    recorded::end_line(stdout);
}

// ---- reading

fn show_read(
    stdout: Stdout,
    call: u8,
    number: u8,
    value: usize,
    out: &[u8],
    tag: [u8; 11],
    info: [usize; INFO],
) {
    recorded::show_answer(stdout, call, number, value);
    recorded::show_bytes(stdout, out);
    recorded::show_bytes(stdout, &tag);
    recorded::show_numbers(stdout, &info);
    recorded::end_line(stdout);
}

fn read(stdout: Stdout, call: u8, stream: &[u8], at: usize, out: &mut [u8]) {
    let mut value = 0;
    let mut tag: [u8; 11] = [170; 11];
    let mut info: [usize; INFO] = [170; INFO];
    if call == 5 {
        let number = exports::cesr_read_text(stream, at, out, &mut tag, &mut info, &mut value);
        show_read(stdout, call, number, value, out, tag, info);
        return;
    }
    let number = exports::cesr_read_binary(stream, at, out, &mut tag, &mut info, &mut value);
    show_read(stdout, call, number, value, out, tag, info);
}

fn read_at(stdout: Stdout, call: u8, src: &[u8], out: &mut [u8]) {
    let n = src.len();
    if 2 <= n {
        let at = number(src[0], src[1]);
        read(stdout, call, &src[2..n], at, out);
    }
}

// ---- writing

fn write(stdout: Stdout, call: u8, head: [u8; 3], tag: [u8; 11], raw: &[u8], out: &mut [u8]) {
    let mut value = 0;
    let tags = usize::from(head[2]);
    if call == 7 {
        let number = exports::cesr_write_text(head[0], head[1], &tag, tags, raw, out, &mut value);
        show(stdout, call, number, value, out);
        return;
    }
    let number = exports::cesr_write_binary(head[0], head[1], &tag, tags, raw, out, &mut value);
    show(stdout, call, number, value, out);
}

fn write_from(stdout: Stdout, call: u8, src: &[u8], out: &mut [u8]) {
    let Some((head, rest)) = src.split_first_chunk::<3>() else {
        return;
    };
    let Some((tag, raw)) = rest.split_first_chunk::<11>() else {
        return;
    };
    write(stdout, call, *head, *tag, raw, out);
}

// ---- an indexed item

// What is told of one.
const TOLD: usize = 7;

fn show_indexed(
    stdout: Stdout,
    call: u8,
    number: u8,
    value: usize,
    raw: &[u8],
    info: [usize; TOLD],
) {
    recorded::show_answer(stdout, call, number, value);
    recorded::show_bytes(stdout, raw);
    recorded::show_numbers(stdout, &info);
    recorded::end_line(stdout);
}

fn read_indexed_text(stdout: Stdout, stream: &[u8], at: usize, out: &mut [u8]) {
    let mut value = 0;
    let mut info: [usize; TOLD] = [170; TOLD];
    let number = exports::cesr_read_indexed_text(stream, at, out, &mut info, &mut value);
    show_indexed(stdout, 21, number, value, out, info);
}

// The raw value is the part that the numbers tell, as a caller finds it.
fn read_indexed_binary(stdout: Stdout, stream: &[u8], at: usize) {
    let mut value = 0;
    let mut info: [usize; TOLD] = [170; TOLD];
    let number = exports::cesr_read_indexed_binary(stream, at, &mut info, &mut value);
    if number != 0 {
        show_indexed(stdout, 22, number, value, b"", info);
        return;
    }
    let n = stream.len();
    if n < at {
        return;
    }
    if n - at < info[3] {
        return;
    }
    let from = at + info[3];
    if n - from < info[4] {
        return;
    }
    let to = from + info[4];
    show_indexed(stdout, 22, number, value, &stream[from..to], info);
}

fn read_indexed_at(stdout: Stdout, call: u8, src: &[u8], out: &mut [u8]) {
    let n = src.len();
    if n < 2 {
        return;
    }
    let at = number(src[0], src[1]);
    if call == 21 {
        read_indexed_text(stdout, &src[2..n], at, out);
        return;
    }
    read_indexed_binary(stdout, &src[2..n], at);
}

fn write_indexed(
    stdout: Stdout,
    call: u8,
    code: [u8; 2],
    index: usize,
    ondex: usize,
    raw: &[u8],
    out: &mut [u8],
) {
    let mut value = 0;
    if call == 23 {
        let number = exports::cesr_write_indexed_text(
            code[0], code[1], index, ondex, raw, out, &mut value,
        );
        show(stdout, call, number, value, out);
        return;
    }
    let number = exports::cesr_write_indexed_binary(
        code[0], code[1], index, ondex, raw, out, &mut value,
    );
    show(stdout, call, number, value, out);
}

fn write_indexed_from(stdout: Stdout, call: u8, src: &[u8], out: &mut [u8]) {
    let Some((code, rest)) = src.split_first_chunk::<2>() else {
        return;
    };
    let Some((index, rest)) = rest.split_first_chunk::<8>() else {
        return;
    };
    let Some((ondex, raw)) = rest.split_first_chunk::<8>() else {
        return;
    };
    let index = usize::from_be_bytes(*index);
    let ondex = usize::from_be_bytes(*ondex);
    write_indexed(stdout, call, *code, index, ondex, raw, out);
}

// ---- a step of the walk

fn show_step(
    stdout: Stdout,
    call: u8,
    number: u8,
    value: usize,
    state: [usize; STATE],
    item: [usize; 6],
) {
    recorded::show_answer(stdout, call, number, value);
    recorded::show_numbers(stdout, &state);
    recorded::show_numbers(stdout, &item);
    recorded::end_line(stdout);
}

fn step(stdout: Stdout, call: u8, stream: &[u8], before: [usize; STATE]) {
    let mut value = 0;
    let mut state = before;
    let mut item: [usize; 6] = [170; 6];
    if call == 9 {
        let number = exports::cesr_walk_text(stream, &mut state, &mut item, &mut value);
        show_step(stdout, call, number, value, state, item);
        return;
    }
    let number = exports::cesr_walk_binary(stream, &mut state, &mut item, &mut value);
    show_step(stdout, call, number, value, state, item);
}

// A step of a text through a reader.
fn read_step_text(stdout: Stdout, stream: &[u8], before: Walk) {
    let step = reader_step::step_text(stream, before);
    let found = step.found;
    let state = exports_state::state_of(step.next);
    match found {
        Found::Item {
            offset,
            size,
            depth,
            kind,
            head,
        } => {
            let item = exports_item::item_of(offset.0, size.0, depth, kind, head);
            show_step(stdout, 11, 0, 0, state, item);
        }
        Found::Refused { number, place } => show_step(stdout, 11, number, place.0, state, [170; 6]),
        Found::End => show_step(stdout, 11, 255, 0, state, [170; 6]),
    }
}

// The same of a binary.
fn read_step_binary(stdout: Stdout, stream: &[u8], before: Walk) {
    let step = reader_step::step_binary(stream, before);
    let found = step.found;
    let state = exports_state::state_of(step.next);
    match found {
        Found::Item {
            offset,
            size,
            depth,
            kind,
            head,
        } => {
            let item = exports_item::item_of(offset.0, size.0, depth, kind, head);
            show_step(stdout, 12, 0, 0, state, item);
        }
        Found::Refused { number, place } => show_step(stdout, 12, number, place.0, state, [170; 6]),
        Found::End => show_step(stdout, 12, 255, 0, state, [170; 6]),
    }
}

fn show_count(stdout: Stdout, call: u8, number: u8, value: usize, items: usize) {
    recorded::show_answer(stdout, call, number, value);
    recorded::show_number(stdout, items);
    recorded::end_line(stdout);
}

// The items that are left, counted.
fn rest(stdout: Stdout, call: u8, stream: &[u8], before: Walk) {
    if call == 9 {
        let tally = walk_count::rest_text(stream, before);
        let items = tally.items;
        let end = tally.end;
        match end {
            Some(Refusal { number, place }) => show_count(stdout, 11, number, place.0, items),
            None => show_count(stdout, 11, 255, 0, items),
        }
        return;
    }
    let tally = walk_count::rest_binary(stream, before);
    let items = tally.items;
    let end = tally.end;
    match end {
        Some(Refusal { number, place }) => show_count(stdout, 12, number, place.0, items),
        None => show_count(stdout, 12, 255, 0, items),
    }
}

// A mark that is neither 0 nor 1 is no reader's.
fn is_state(before: [usize; STATE]) -> bool {
    if 1 < before[MARK] {
        return false;
    }
    before[INDEXED] <= 1
}

fn through_reader(stdout: Stdout, call: u8, stream: &[u8], before: [usize; STATE]) {
    if !is_state(before) {
        return;
    }
    let walk = exports_state::walk_of(before);
    if call == 9 {
        read_step_text(stdout, stream, walk);
    } else {
        read_step_binary(stdout, stream, walk);
    }
    rest(stdout, call, stream, walk);
}

// A walk's state, a number a byte.
fn state_from(src: &[u8]) -> [usize; STATE]
    requires { state_size ≤ length src.now }
{
    let mut state: [usize; STATE] = [0; STATE];
    for (n, b) in state.iter_mut().zip(src) {
        *n = usize::from(*b);
    }
    state
}

fn step_from(stdout: Stdout, call: u8, src: &[u8]) {
    let n = src.len();
    if STATE <= n {
        let before = state_from(src);
        let stream = &src[STATE..n];
        step(stdout, call, stream, before);
        through_reader(stdout, call, stream, before);
    }
}

// ---- an instalment of the walk

fn show_slice(
    stdout: Stdout,
    call: u8,
    number: u8,
    value: usize,
    items: usize,
    state: [usize; STATE],
) {
    recorded::show_answer(stdout, call, number, value);
    recorded::show_number(stdout, items);
    recorded::show_numbers(stdout, &state);
    recorded::end_line(stdout);
}

fn walk_on(stdout: Stdout, call: u8, stream: &[u8], before: [usize; STATE], budget: usize) {
    let mut value = 0;
    let mut items = 0;
    let mut state = before;
    if call == 13 {
        let number = exports::cesr_walk_on_text(stream, &mut state, budget, &mut items, &mut value);
        show_slice(stdout, call, number, value, items, state);
        return;
    }
    let number = exports::cesr_walk_on_binary(stream, &mut state, budget, &mut items, &mut value);
    show_slice(stdout, call, number, value, items, state);
}

fn walk_on_text(stdout: Stdout, stream: &[u8], before: Walk, budget: usize) {
    let walked = instalments_walk::walk_on_text(before, stream, budget);
    let pause = walked.pause;
    let items = walked.items;
    let state = exports_state::state_of(walked.next);
    match pause {
        Pause::Spent => show_slice(stdout, 15, 0, 0, items, state),
        Pause::End => show_slice(stdout, 15, 255, 0, items, state),
        Pause::Refused { number, place } => show_slice(stdout, 15, number, place.0, items, state),
    }
}

fn walk_on_binary(stdout: Stdout, stream: &[u8], before: Walk, budget: usize) {
    let walked = instalments_walk::walk_on_binary(before, stream, budget);
    let pause = walked.pause;
    let items = walked.items;
    let state = exports_state::state_of(walked.next);
    match pause {
        Pause::Spent => show_slice(stdout, 16, 0, 0, items, state),
        Pause::End => show_slice(stdout, 16, 255, 0, items, state),
        Pause::Refused { number, place } => show_slice(stdout, 16, number, place.0, items, state),
    }
}

fn walk_on_from(stdout: Stdout, call: u8, src: &[u8], budget: usize) {
    let n = src.len();
    if n < STATE {
        return;
    }
    let before = state_from(src);
    let stream = &src[STATE..n];
    walk_on(stdout, call, stream, before, budget);
    if !is_state(before) {
        return;
    }
    let walk = exports_state::walk_of(before);
    if call == 13 {
        walk_on_text(stdout, stream, walk, budget);
        return;
    }
    walk_on_binary(stdout, stream, walk, budget);
}

// ---- expected verdicts and a report

fn show_counts(stdout: Stdout, number: u8, counts: [usize; 5]) {
    recorded::show_answer(stdout, 20, number, 0);
    recorded::show_numbers(stdout, &counts);
    recorded::end_line(stdout);
}

fn compare(stdout: Stdout, expected: &[u8], report: &[u8]) {
    let mut answer: [usize; 5] = [170; 5];
    let number = exports::cesr_compare(expected, report, &mut answer);
    show_counts(stdout, number, answer);
}

fn compare_from(stdout: Stdout, src: &[u8]) {
    let n = src.len();
    if n < 2 {
        return;
    }
    let length = number(src[0], src[1]);
    if n - 2 < length {
        return;
    }
    let to = 2 + length;
    compare(stdout, &src[2..to], &src[to..n]);
}

// ---- any call

fn run(stdout: Stdout, call: u8, src: &[u8], out: &mut [u8]) {
    if call < 5 {
        whole(stdout, call, src, out);
        return;
    }
    if call < 7 {
        read_at(stdout, call, src, out);
        return;
    }
    if call < 9 {
        write_from(stdout, call, src, out);
        return;
    }
    if call == 20 {
        compare_from(stdout, src);
        return;
    }
    if 22 < call {
        write_indexed_from(stdout, call, src, out);
        return;
    }
    if 20 < call {
        read_indexed_at(stdout, call, src, out);
        return;
    }
    if call < 13 {
        step_from(stdout, call, src);
        return;
    }
    walk_on_from(stdout, call, src, out.len());
}

fn whole(stdout: Stdout, call: u8, src: &[u8], out: &mut [u8]) {
    let mut value = 0;
    if call == 1 {
        let number = exports::cesr_text_to_binary(src, out, &mut value);
        show(stdout, call, number, value, out);
        return;
    }
    if call == 2 {
        let number = exports::cesr_binary_to_text(src, out, &mut value);
        show(stdout, call, number, value, out);
        return;
    }
    if call == 3 {
        let number = exports::cesr_report_text(src, out, &mut value);
        show(stdout, call, number, value, out);
        return;
    }
    if call == 4 {
        let number = exports::cesr_report_binary(src, out, &mut value);
        show(stdout, call, number, value, out);
    }
}

// A buffer that holds AA everywhere.
fn space() -> [u8; 4096]
    ensures { 4096 ≡ length result }
{
    [170; 4096]
}

fn lend(stdout: Stdout, call: u8, room: usize, src: &[u8]) {
    let mut buffer = space();
    if room <= 4096 {
        run(stdout, call, src, &mut buffer[..room]);
    }
}

// Room for all the records.
fn record_space() -> [u8; 262144]
    ensures { 262144 ≡ length result }
{
    [0; 262144]
}

fn main(rt: HostRuntime) {
    let mut records = record_space();
    let n = recorded::read_full(&mut rt.stdin(), &mut records);
    let mut at = 0;
    while at < n {
        if n - at < 5 {
            return;
        }
        let call = records[at];
        let room = number(records[at + 1], records[at + 2]);
        let length = number(records[at + 3], records[at + 4]);
        let from = at + 5;
        if n - from < length {
            return;
        }
        let to = from + length;
        lend(rt.stdout(), call, room, &records[from..to]);
        at = to;
    }
}
