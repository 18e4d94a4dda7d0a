// Runs recorded calls on a stream that arrives in pieces, and writes what each answered and left in its buffers. The records and the expected
// output were made by the independent program in rust/oracle; nothing here was.
//
// A record: the call (1 byte: 28 begins a text, 29 a binary; 30 is a piece of a text, 31 of a binary; 32 is a text's end, 33 a binary's), the
// room for items, or at the end for the remainder (2 bytes, big-endian), the room for refusals (2), the piece's length (2) and the piece. The
// state goes from record to record. A line of output, for all but the first two: the call, the number (0: taken in), the lengths written to
// items and to refusals, or to the one buffer of the end, and the buffers in hexadecimal.
#![tactic(auto)]

ghost use Rattle.std.specs.Prelude.{◌≡◌, length};

use exports_pieces_state::PIECES;
use recorded::number;
use std::io::Stdout;

fn show_fed(
    stdout: Stdout,
    call: u8,
    number: u8,
    given: [usize; 2],
    items: &[u8],
    refusals: &[u8],
) {
    recorded::show_answer(stdout, call, number, given[0]);
    recorded::show_number(stdout, given[1]);
    recorded::show_bytes(stdout, items);
    recorded::show_bytes(stdout, refusals);
    recorded::end_line(stdout);
}

fn feed(
    stdout: Stdout,
    call: u8,
    state: &mut [usize; PIECES],
    piece: &[u8],
    items: &mut [u8],
    refusals: &mut [u8],
) {
    let mut given: [usize; 2] = [0; 2];
    if call == 30 {
        let number = exports::cesr_feed_text(state, piece, items, refusals, &mut given);
        show_fed(stdout, call, number, given, items, refusals);
        return;
    }
    let number = exports::cesr_feed_binary(state, piece, items, refusals, &mut given);
    show_fed(stdout, call, number, given, items, refusals);
}

fn show_ended(stdout: Stdout, call: u8, number: u8, value: usize, out: &[u8]) {
    recorded::show_answer(stdout, call, number, value);
    recorded::show_bytes(stdout, out);
    recorded::end_line(stdout);
}

fn end(stdout: Stdout, call: u8, state: &mut [usize; PIECES], out: &mut [u8]) {
    let mut value = 0;
    if call == 32 {
        let number = exports::cesr_end_text(state, out, &mut value);
        show_ended(stdout, call, number, value, out);
        return;
    }
    let number = exports::cesr_end_binary(state, out, &mut value);
    show_ended(stdout, call, number, value, out);
}

// Room for the longest rows, which hold AA.
fn space() -> [u8; 4096]
    ensures { 4096 ≡ length result }
{
    [170; 4096]
}

fn lend_two(
    stdout: Stdout,
    call: u8,
    state: &mut [usize; PIECES],
    room: usize,
    more: usize,
    piece: &[u8],
) {
    let mut items = space();
    let mut refusals = space();
    if room <= 4096 {
        if more <= 4096 {
            feed(
                stdout,
                call,
                state,
                piece,
                &mut items[..room],
                &mut refusals[..more],
            );
        }
    }
}

fn lend_one(stdout: Stdout, call: u8, state: &mut [usize; PIECES], room: usize) {
    let mut out = space();
    if room <= 4096 {
        end(stdout, call, state, &mut out[..room]);
    }
}

// The start of a text, or of a binary: the elements to a unit, and zeros.
fn begun(call: u8) -> [usize; PIECES] {
    let mut state: [usize; PIECES] = [0; PIECES];
    if call == 28 {
        state[0] = 4;
    } else {
        state[0] = 3;
    }
    state
}

// A record's numbers, and the call on its piece.
fn run(stdout: Stdout, state: &mut [usize; PIECES], record: &[u8]) {
    let n = record.len();
    if 7 <= n {
        let call = record[0];
        let room = number(record[1], record[2]);
        if call < 30 {
            *state = begun(call);
            return;
        }
        if 32 <= call {
            lend_one(stdout, call, state, room);
            return;
        }
        lend_two(
            stdout,
            call,
            state,
            room,
            number(record[3], record[4]),
            &record[7..n],
        );
    }
}

// Room for all the records.
fn record_space() -> [u8; 262144]
    ensures { 262144 ≡ length result }
{
    [0; 262144]
}

fn main(rt: HostRuntime) {
    let mut records = record_space();
    let n = recorded::read_full(&mut rt.stdin(), &mut records);
    let mut state = begun(28);
    let mut at = 0;
    while at < n {
        if n - at < 7 {
            return;
        }
        let length = 7 + number(records[at + 5], records[at + 6]);
        if n - at < length {
            return;
        }
        let to = at + length;
        run(rt.stdout(), &mut state, &records[at..to]);
        at = to;
    }
}
