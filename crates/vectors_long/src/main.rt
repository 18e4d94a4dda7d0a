// Runs recorded writes of long values, around what a small and a large form may hold, and reads back what was written. The
// records and the expected output were made by the independent program in rust/oracle; nothing here was.
//
// A record is ten bytes: the call (7 to text, 8 to binary), the code's chars and letter, a seed, the value's length (4 bytes, big-endian)
// and the room lent (2). The value is not recorded: with n = 7 i + i / 256 + seed byte i is n mod 256, and of a text the small letter
// n mod 26. A line of output: the call, the number (0: accepted), the length or place, a checksum of the whole lent buffer, which held AA
// before, and its first twelve bytes. Where an item was written it is read back, and a second line has the seven numbers of the item, the
// length of what was read and how many of its bytes, from the first on, are those that were given.
// Call 21 of a text and 22 of a binary reads the indexed item that a stream begins with, around what a stream may have: the value is that
// stream, and the line has the seven numbers of the item and the checksum of the buffer.
// Call 28 of a text and 29 of a binary is the report by the second judge, of a stream around the limit. Of a binary, whose text asks for more
// than the sixteen bytes of working room that are lent, the line ends with these, which held AA before.
#![tactic(auto)]

ghost use Rattle.std.specs.Prelude.{◌≡◌, ◌<◌, length};

use exports_values::INFO;
use format::BinaryOffset;
use recorded::{number, show_number};
use std::io::Stdout;

// ---- the raw value

// Type `A`, which is 65, holds characters: small letters.
fn byte_at(i: usize, letter: u8, seed: u8) -> u8 {
    let n = i % 65536 * 7 + i / 256 % 256 + usize::from(seed);
    if letter == 65 {
        return (97 + n % 26) as u8;
    }
    (n % 256) as u8
}

fn fill(raw: &mut [u8], letter: u8, seed: u8) {
    for (i, b) in raw.iter_mut().enumerate() {
        *b = byte_at(i, letter, seed);
    }
}

// How many bytes from the first on are the filled ones.
fn agreeing(raw: &[u8], letter: u8, seed: u8) -> usize {
    raw.iter()
        .enumerate()
        .position(|(i, b)| *b != byte_at(i, letter, seed))
        .unwrap_or(raw.len())
}

// ---- a buffer in short

// The bytes as digits of base 257, each one more than its byte, modulo the largest prime below 2 to the 32.
fn checksum(s: &[u8]) -> usize
    ensures { result < 4294967291 }
{
    let mut sum: usize = 0;
    for b in s {
        sum = (sum * 257 + usize::from(*b) + 1) % 4294967291;
    }
    sum
}

// The first twelve bytes: code, count and where the raw value begins.
fn show_head(stdout: Stdout, out: &[u8]) {
    if 12 <= out.len() {
        recorded::show_bytes(stdout, &out[0..12]);
    }
}

fn show_written(stdout: Stdout, call: u8, number: u8, value: usize, out: &[u8]) {
    recorded::show_answer(stdout, call, number, value);
    show_number(stdout, checksum(out));
    show_head(stdout, out);
    recorded::end_line(stdout);
}

fn show_read(
    stdout: Stdout,
    call: u8,
    number: u8,
    value: usize,
    info: [usize; INFO],
    raw: &[u8],
    letter: u8,
    seed: u8,
) {
    recorded::show_answer(stdout, call, number, value);
    recorded::show_numbers(stdout, &info);
    show_number(stdout, raw.len());
    show_number(stdout, agreeing(raw, letter, seed));
    recorded::end_line(stdout);
}

// ---- an item read back

fn read_text(stdout: Stdout, item: &[u8], raw: &mut [u8], letter: u8, seed: u8) {
    raw.fill(170);
    let mut value = 0;
    let mut tag: [u8; 11] = [170; 11];
    let mut info: [usize; INFO] = [170; INFO];
    let number = exports::cesr_read_text(item, 0, raw, &mut tag, &mut info, &mut value);
    show_read(stdout, 5, number, value, info, raw, letter, seed);
}

// A text is copied out; any other value is the part where it lies.
fn read_binary(stdout: Stdout, item: &[u8], raw: &mut [u8], letter: u8, seed: u8) {
    raw.fill(170);
    let mut value = 0;
    let mut tag: [u8; 11] = [170; 11];
    let mut info: [usize; INFO] = [170; INFO];
    let number = exports::cesr_read_binary(item, 0, raw, &mut tag, &mut info, &mut value);
    if letter == 65 {
        show_read(stdout, 6, number, value, info, raw, letter, seed);
        return;
    }
    let part = reading_binary::raw_binary(item, BinaryOffset(0));
    show_read(stdout, 6, number, value, info, part, letter, seed);
}

// ---- an item written

fn write_text(stdout: Stdout, chars: u8, letter: u8, raw: &mut [u8], seed: u8, out: &mut [u8]) {
    let mut value = 0;
    let tag: [u8; 11] = [33; 11];
    let number = exports::cesr_write_text(chars, letter, &tag, 0, raw, out, &mut value);
    show_written(stdout, 7, number, value, out);
    if number == 0 {
        if value <= out.len() {
            read_text(stdout, &out[0..value], raw, letter, seed);
        }
    }
}

fn write_binary(stdout: Stdout, chars: u8, letter: u8, raw: &mut [u8], seed: u8, out: &mut [u8]) {
    let mut value = 0;
    let tag: [u8; 11] = [33; 11];
    let number = exports::cesr_write_binary(chars, letter, &tag, 0, raw, out, &mut value);
    show_written(stdout, 8, number, value, out);
    if number == 0 {
        if value <= out.len() {
            read_binary(stdout, &out[0..value], raw, letter, seed);
        }
    }
}

// ---- an indexed item at the start of a long stream

// What is told of one.
const TOLD: usize = 7;

fn show_indexed(
    stdout: Stdout,
    call: u8,
    number: u8,
    value: usize,
    info: [usize; TOLD],
    out: &[u8],
) {
    recorded::show_answer(stdout, call, number, value);
    recorded::show_numbers(stdout, &info);
    show_number(stdout, checksum(out));
    recorded::end_line(stdout);
}

fn read_indexed(stdout: Stdout, call: u8, stream: &[u8], out: &mut [u8]) {
    let mut value = 0;
    let mut info: [usize; TOLD] = [170; TOLD];
    if call == 21 {
        let number = exports::cesr_read_indexed_text(stream, 0, out, &mut info, &mut value);
        show_indexed(stdout, call, number, value, info, out);
        return;
    }
    let number = exports::cesr_read_indexed_binary(stream, 0, &mut info, &mut value);
    show_indexed(stdout, call, number, value, info, out);
}

// ---- a report by the second judge

fn second_text(stdout: Stdout, call: u8, stream: &[u8], out: &mut [u8]) {
    let mut value = 0;
    let number = exports::cesr_second_text(stream, out, &mut value);
    show_written(stdout, call, number, value, out);
}

fn second_binary(stdout: Stdout, call: u8, stream: &[u8], out: &mut [u8]) {
    let mut value = 0;
    let mut work: [u8; 16] = [170; 16];
    let number = exports::cesr_second_binary(stream, &mut work, out, &mut value);
    recorded::show_answer(stdout, call, number, value);
    show_number(stdout, checksum(out));
    recorded::show_bytes(stdout, &work);
    recorded::end_line(stdout);
}

// ---- any call

fn run(stdout: Stdout, head: [u8; 4], raw: &mut [u8], out: &mut [u8]) {
    let letter = head[2];
    let seed = head[3];
    fill(raw, letter, seed);
    out.fill(170);
    if head[0] == 28 {
        second_text(stdout, head[0], raw, out);
        return;
    }
    if head[0] == 29 {
        second_binary(stdout, head[0], raw, out);
        return;
    }
    if 20 < head[0] {
        read_indexed(stdout, head[0], raw, out);
        return;
    }
    if head[0] == 7 {
        write_text(stdout, head[1], letter, raw, seed, out);
        return;
    }
    write_binary(stdout, head[1], letter, raw, seed, out);
}

fn lend(stdout: Stdout, r: [u8; 10], raw: &mut [u8], out: &mut [u8]) {
    let head = [r[0], r[1], r[2], r[3]];
    let length = number(r[4], r[5]) * 65536 + number(r[6], r[7]);
    let room = number(r[8], r[9]);
    if length <= raw.len() {
        if room <= out.len() {
            run(stdout, head, &mut raw[0..length], &mut out[0..room]);
        }
    }
}

fn run_all(stdout: Stdout, records: &[u8], raw: &mut [u8], out: &mut [u8]) {
    let (records, _) = records.as_chunks::<10>();
    for r in records {
        lend(stdout, *r, raw, out);
    }
}

// One character more than a stream has, and nine more than a large text holds.
fn raw_space() -> [u8; 4194305]
    ensures { 4194305 ≡ length result }
{
    [0; 4194305]
}

// A large text of 12,288 raw bytes, and a byte behind it.
fn out_space() -> [u8; 16393]
    ensures { 16393 ≡ length result }
{
    [0; 16393]
}

// Room for all the records.
fn record_space() -> [u8; 65536]
    ensures { 65536 ≡ length result }
{
    [0; 65536]
}

fn main(rt: HostRuntime) {
    let mut records = record_space();
    let n = recorded::read_full(&mut rt.stdin(), &mut records);
    let mut raw = raw_space();
    let mut out = out_space();
    run_all(rt.stdout(), &records[..n], &mut raw, &mut out);
}
