// The report of a mixed stream into a lent buffer: items with their form, refusals, remainder, each after its count. A first pass counts the
// items, since room is asked by them; a second stores their rows where they are to stand. The tables are named once and lent; `to` is a byte
// in front of which, from the present one on, all characters of a text are known, and `known` such a byte from the first on, so that a stream
// of text items alone is scanned once for both passes.
#![tactic(auto)]

ghost use Rattle.std.specs.Prelude.{◌≡◌, length};
ghost use Rattle.mixed.specs.Mixed.{mixed_answer, mixed_left};
ghost use Rattle.mixed_report.specs.Turns.{Read, Counted, Begun, Ends, Ended, Written, Answered};

use filling::Position;
use format::Refusal;
use mixed_turn::Turn;
use report_last::End;
use runs_tables::Tables;

// ---- the rows

// All rows of a stream, one turn after the other.
fn put_all(tables: &Tables, s: &[u8], out: &mut [u8], known: usize, n: usize) -> End
    requires { Begun tables.now s.now known n out.old }
    ensures { Ended s.now n out.old result out.new }
{
    let mut to = known;
    let mut at = 0;
    let mut stored = 0;
    let mut refused = 0;
    while at < s.len() {
        to = mixed_known::known(s, at, to);
        let here = Position {
            items: n,
            at,
            stored,
            refused,
        };
        match mixed_turn::put_turn(tables, s, out, to, here) {
            Turn::Rest { number } => {
                return End::Rest {
                    offset: at,
                    refused,
                    number,
                };
            }
            Turn::Stored {
                bytes,
                refused: more,
            } => {
                at += bytes;
                stored += 1;
                refused += more;
            }
        }
    }
    End::Whole { refused }
}

// The number of items, and their rows.
fn put_items(tables: &Tables, s: &[u8], out: &mut [u8], known: usize, n: usize) -> End
    requires { Counted tables.now s.now known n out.old }
    ensures { Ends s.now out.old n result out.new }
{
    report_rows::put_number(out, 0, n);
    put_all(tables, s, out, known, n)
}

// Writes the report of a stream, which has n items.
fn fill(tables: &Tables, s: &[u8], out: &mut [u8], known: usize, n: usize) -> usize
    requires { Counted tables.now s.now known n out.old }
    ensures { Written s.now out.old result out.new }
{
    let end = put_items(tables, s, out, known, n);
    report_last::put_last(out, 4 + 10 * n, end)
}

// ---- the call

// By the tables.
fn report_by(
    tables: &Tables,
    s: &[u8],
    out: &mut [u8],
    known: usize,
) -> Result<usize, Refusal<usize>>
    requires { Read tables.now s.now known }
    ensures { Answered s.now out.old result out.new }
{
    let n = mixed_count::count(tables, s, known);
    if out.len() < 17 + 19 * n {
        return Err(Refusal {
            number: 3,
            place: 0,
        });
    }
    let length = fill(tables, s, out, known, n);
    Ok(length)
}

// The report of a mixed stream in a buffer: its length, or 1 or 3, which leave the buffer as it was.
pub fn report_mixed(s: &[u8], out: &mut [u8]) -> Result<usize, Refusal<usize>>
    ensures value { result ≡ mixed_answer s.now (length out.old) }
    ensures out_after { out.new ≡ mixed_left result s.now out.old }
{
    if 4194304 < s.len() {
        return Err(Refusal {
            number: 1,
            place: 0,
        });
    }
    let tables = Tables::new();
    let known = mixed_known::known(s, 0, 0);
    report_by(&tables, s, out, known)
}
