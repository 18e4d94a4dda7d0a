// Runs recorded calls of 02's requests, a group put around a body, mixed reports and reports by the second judge, and writes what each
// answered and left in its buffers. The records and the expected output were made by the independent program in rust/oracle; nothing here
// was.
//
// A record: the call (1 byte), two numbers (2 bytes each, big-endian), the input's length (2) and the input. A line of output: the call, the
// number (0: accepted), the length or place, and the whole buffer in hexadecimal.
// A group (25 a text, 26 a binary): the stated length of the body, the group's letter, and the buffer, at whose start the body lies.
// A report (27 mixed, 28 a text and 29 a binary by the second judge): the room lent, the working room, and the stream. Both rooms held AA
// before; of a binary by the second judge the line goes on with the working room.
#![tactic(auto)]

ghost use Rattle.std.specs.Prelude.{◌≡◌, length};

use recorded::number;
use std::io::Stdout;

fn show(stdout: Stdout, call: u8, number: u8, value: usize, out: &[u8]) {
    recorded::show_answer(stdout, call, number, value);
    recorded::show_bytes(stdout, out);
}

// ---- a group

fn group(stdout: Stdout, call: u8, letter: u8, stated: usize, buffer: &mut [u8]) {
    let mut value = 0;
    if call == 25 {
        let number = exports::cesr_group_text(letter, stated, buffer, &mut value);
        show(stdout, call, number, value, buffer);
        return;
    }
    let number = exports::cesr_group_binary(letter, stated, buffer, &mut value);
    show(stdout, call, number, value, buffer);
}

// The record's buffer in one that may be written.
fn copied(stdout: Stdout, call: u8, letter: u8, stated: usize, src: &[u8], buffer: &mut [u8]) {
    if src.len() <= buffer.len() {
        buffer[..src.len()].copy_from_slice(src);
        group(stdout, call, letter, stated, buffer);
        recorded::end_line(stdout);
    }
}

// Room for the longest buffer of a group.
fn group_space() -> [u8; 20480]
    ensures { 20480 ≡ length result }
{
    [0; 20480]
}

fn lend_group(stdout: Stdout, call: u8, letter: u8, stated: usize, src: &[u8]) {
    let mut buffer = group_space();
    let n = src.len();
    if n <= 20480 {
        copied(stdout, call, letter, stated, src, &mut buffer[..n]);
    }
}

// ---- a report

fn report(stdout: Stdout, call: u8, stream: &[u8], out: &mut [u8]) {
    let mut value = 0;
    if call == 27 {
        let number = exports::cesr_report_mixed(stream, out, &mut value);
        show(stdout, call, number, value, out);
        return;
    }
    let number = exports::cesr_second_text(stream, out, &mut value);
    show(stdout, call, number, value, out);
}

fn second_binary(stdout: Stdout, call: u8, stream: &[u8], work: &mut [u8], out: &mut [u8]) {
    let mut value = 0;
    let number = exports::cesr_second_binary(stream, work, out, &mut value);
    show(stdout, call, number, value, out);
    recorded::show_bytes(stdout, work);
}

fn answer(stdout: Stdout, call: u8, stream: &[u8], work: &mut [u8], out: &mut [u8]) {
    if call == 29 {
        second_binary(stdout, call, stream, work, out);
        recorded::end_line(stdout);
        return;
    }
    report(stdout, call, stream, out);
    recorded::end_line(stdout);
}

// A buffer that holds AA everywhere.
fn space() -> [u8; 512]
    ensures { 512 ≡ length result }
{
    [170; 512]
}

fn lend(stdout: Stdout, call: u8, room: usize, work_room: usize, stream: &[u8]) {
    let mut buffer = space();
    let mut work = space();
    if room <= 512 {
        if work_room <= 512 {
            answer(
                stdout,
                call,
                stream,
                &mut work[..work_room],
                &mut buffer[..room],
            );
        }
    }
}

// ---- any call

// A record's numbers, and the call on its input.
fn run(stdout: Stdout, record: &[u8]) {
    let n = record.len();
    if 7 <= n {
        let first = number(record[1], record[2]);
        if record[0] < 27 {
            lend_group(stdout, record[0], record[4], first, &record[7..n]);
            return;
        }
        let work_room = number(record[3], record[4]);
        lend(stdout, record[0], first, work_room, &record[7..n]);
    }
}

// Room for all the records.
fn record_space() -> [u8; 262144]
    ensures { 262144 ≡ length result }
{
    [0; 262144]
}

fn main(rt: HostRuntime) {
    let mut records = record_space();
    let n = recorded::read_full(&mut rt.stdin(), &mut records);
    let mut at = 0;
    while at < n {
        if n - at < 7 {
            return;
        }
        let length = 7 + number(records[at + 5], records[at + 6]);
        if n - at < length {
            return;
        }
        let to = at + length;
        run(rt.stdout(), &records[at..to]);
        at = to;
    }
}
