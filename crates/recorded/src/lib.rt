// What the programs over recorded calls share: the records from an input, numbers out of a record, and how an answer is written. Output
// that is not taken is let go, as a comparison with what is expected tells it.
#![tactic(auto)]

ghost use Rattle.std.specs.Prelude.{◌≡◌, ◌<◌, ◌≤◌, length, take};

use std::io::{Read, Stdout};

// Reads until the buffer is full, the input ends or a read fails: how many bytes stand at its start.
pub fn read_full<R: Read>(reader: &mut R, buffer: &mut [u8]) -> usize
    ensures within { result ≤ length buffer.new }
    ensures taken { result ≡ length (take result buffer.new) }
{
    let mut done = 0;
    while done < buffer.len() {
        match reader.read(&mut buffer[done..]) {
            Ok(n) if n > 0 => done += n,
            _ => break,
        }
    }
    done
}

// Big-endian.
pub fn number(high: u8, low: u8) -> usize
    ensures { result < 65536 }
{
    usize::from(u16::from_be_bytes([high, low]))
}

fn show_byte(stdout: Stdout, b: u8) {
    let _ = print!(stdout; "{b:02x}");
}

pub fn show_bytes(stdout: Stdout, s: &[u8]) {
    let _ = print!(stdout; " ");
    for b in s {
        show_byte(stdout, *b);
    }
}

pub fn show_number(stdout: Stdout, n: usize) {
    let _ = print!(stdout; " {n}");
}

pub fn show_numbers(stdout: Stdout, s: &[usize]) {
    for n in s {
        show_number(stdout, *n);
    }
}

// The call, the number (0: accepted), the length or place.
pub fn show_answer(stdout: Stdout, call: u8, number: u8, value: usize) {
    let _ = print!(stdout; "{call}");
    show_number(stdout, usize::from(number));
    show_number(stdout, value);
}

pub fn end_line(stdout: Stdout) {
    let _ = println!(stdout);
}
