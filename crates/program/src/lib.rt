// What the two programs share: a stream from standard input, told from one that a failed read cut off, and what is to be
// written.
#![tactic(auto)]

ghost use Rattle.std.specs.Prelude.{◌≡◌, ◌≤◌, length, take};
ghost use Rattle.program.specs.Counts.{IsPrefixLen};
ghost use Rattle.format.specs.Units.{text, binary};
ghost use Rattle.program.specs.Printed.{printed_answer, printed_left, Fits, Came};
ghost use Rattle.program.specs.Taken.{Takes, Took};

use std::io::Read;

// The longest stream that is reported, and room for each such report: 17 + 18 x 2,730.
const LONGEST: usize = 8192;

const ROOM: usize = 49157;

// What came from standard input: whole, so many bytes, or cut off by a read that failed.
#[derive(Clone, Copy)]
pub enum Input {
    Failed,
    Whole(usize),
}

// One read into the buffer from `at` on.
fn receive<R: Read>(reader: &mut R, buffer: &mut [u8], at: usize) -> Input
    requires { at ≤ length buffer.old }
    ensures fits { Fits result at (length buffer.old) }
    ensures before { take at buffer.new ≡ take at buffer.old }
    ensures bytes { Takes (R.remaining reader.old) (R.remaining reader.new) at result buffer.new }
{
    match reader.read(&mut buffer[at..]) {
        Ok(more) => Input::Whole(more),
        Err(_) => Input::Failed,
    }
}

// Reads until the buffer is full or the input ends. A buffer one byte longer than a stream may be tells a longer one.
pub fn read_stream<R: Read>(reader: &mut R, buffer: &mut [u8]) -> Input
    ensures came { Came result buffer.new }
    ensures bytes { Took (R.remaining reader.old) (R.remaining reader.new) result buffer.new }
{
    let mut done = 0;
    while done < buffer.len() {
        match receive(reader, buffer, done) {
            Input::Failed => {
                return Input::Failed;
            }
            Input::Whole(more) => {
                if more == 0 {
                    return Input::Whole(done);
                }
                done = done + more;
            }
        }
    }
    Input::Whole(done)
}

// What the text program writes, at the start of out.
pub fn answer_text(s: &[u8], out: &mut [u8]) -> usize
    ensures value { result ≡ printed_answer text s.now (length out.old) }
    ensures out_after { out.new ≡ printed_left text s.now out.old }
    ensures prefix_len { IsPrefixLen result out.new }
{
    if out.len() < ROOM {
        return 0;
    }
    if LONGEST < s.len() {
        out[0] = 1;
        return 1;
    }
    match report::report_text(s, out) {
        Ok(n) => n,
        Err(_) => 0,
    }
}

// What the binary program writes.
pub fn answer_binary(s: &[u8], out: &mut [u8]) -> usize
    ensures value { result ≡ printed_answer binary s.now (length out.old) }
    ensures out_after { out.new ≡ printed_left binary s.now out.old }
    ensures prefix_len { IsPrefixLen result out.new }
{
    if out.len() < ROOM {
        return 0;
    }
    if LONGEST < s.len() {
        out[0] = 1;
        return 1;
    }
    match report::report_binary(s, out) {
        Ok(n) => n,
        Err(_) => 0,
    }
}
