// Reads a mixed stream of at most 8,192 bytes from standard input and writes its report, or for a longer one the single byte 01. Where
// a read fails it writes nothing; that, and output that could not be written, is said on standard error, and the exit status is then 1.
#![tactic(auto)]

ghost use Rattle.std.specs.Prelude.{◌≡◌, length};

use program::Input;
use std::io::Write;
use std::process::ExitCode;

// One byte more than a stream may have.
fn space() -> [u8; 8193]
    ensures { 8193 ≡ length result }
{
    [0; 8193]
}

// 17 + 19 x 2,730: every report of 8,192 bytes.
fn room() -> [u8; 51887]
    ensures { 51887 ≡ length result }
{
    [0; 51887]
}

fn print(rt: HostRuntime, s: &[u8]) -> ExitCode {
    let mut out = room();
    let n = mixed_program::answer_mixed(s, &mut out);
    if rt.stdout().write_all(&out[..n]).is_err() {
        let _ = rt.stderr().write_all(&program_lines::unwritten());
        return ExitCode::FAILURE;
    }
    ExitCode::SUCCESS
}

fn main(rt: HostRuntime) -> ExitCode {
    let mut buffer = space();
    match program::read_stream(&mut rt.stdin(), &mut buffer) {
        Input::Failed => {
            let _ = rt.stderr().write_all(&program_lines::unread());
            ExitCode::FAILURE
        }
        Input::Whole(n) => print(rt, &buffer[..n]),
    }
}
