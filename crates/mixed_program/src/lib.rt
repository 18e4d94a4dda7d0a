// What the program for mixed streams writes: the report of one of at most 8,192 bytes, or for a longer one the single byte 01.
#![tactic(auto)]

ghost use Rattle.std.specs.Prelude.{◌≡◌, length};
ghost use Rattle.program.specs.Counts.{IsPrefixLen};
ghost use Rattle.mixed_program.specs.Printed.{printed_answer, printed_left, Prints};

// The longest stream that is reported, and room for each such report: 17 + 19 x 2,730.
const LONGEST: usize = 8192;

const ROOM: usize = 51887;

fn answer(s: &[u8], out: &mut [u8]) -> usize
    ensures { Prints s.now out.old result out.new }
{
    if out.len() < ROOM {
        return 0;
    }
    if LONGEST < s.len() {
        out[0] = 1;
        return 1;
    }
    match mixed_report::report_mixed(s, out) {
        Ok(n) => n,
        Err(_) => 0,
    }
}

// What the program writes, at the start of out.
pub fn answer_mixed(s: &[u8], out: &mut [u8]) -> usize
    ensures value { result ≡ printed_answer s.now (length out.old) }
    ensures out_after { out.new ≡ printed_left s.now out.old }
    ensures prefix_len { IsPrefixLen result out.new }
{
    answer(s, out)
}
