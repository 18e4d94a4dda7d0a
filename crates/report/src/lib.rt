// The report of a stream, text or binary, into a lent buffer: items, refusals, remainder, each after its count. A first pass counts
// the items, since room is asked by them; a second stores their rows where they are to stand, by the fast way where it accepts an
// item and else by the general way. The tables are named once and lent. Positions count units, u elements each; in text, `clean`
// is a unit in front of which, from the present one on, all characters are known.
#![tactic(auto)]

ghost use Rattle.std.specs.Prelude.{◌≡◌, ◌+◌, ◌*◌, ◌≤◌, length};
ghost use Rattle.format.specs.Units.{domain, text, binary};
ghost use Rattle.format.specs.Report.{report_answer, report_left};
ghost use Rattle.report.specs.Turns.{Read, Counted, Begun, Ends, Ended, Written, Answered};

use filling::Position;
use format::{Form, Refusal};
use report_general::Turn;
use report_last::End;
use runs_tables::Tables;

// ---- the rows

// All rows of a stream, one turn after the other.
fn put_all(
    form: Form,
    u: usize,
    tables: &Tables,
    s: &[u8],
    out: &mut [u8],
    known: usize,
    n: usize,
) -> End
    requires { Begun form u tables.now s.now known n out.old }
    ensures { Ended form s.now n out.old result out.new }
{
    let mut clean = known;
    let mut at = 0;
    let mut stored = 0;
    let mut refused = 0;
    while u * at < s.len() {
        clean = report_first::known(form, s, at, clean);
        let here = Position {
            items: n,
            at,
            stored,
            refused,
        };
        match report_turn::put_turn(form, tables, s, out, clean, here) {
            Turn::Rest { number } => {
                return End::Rest {
                    offset: u * at,
                    refused,
                    number,
                };
            }
            Turn::Stored {
                units,
                items,
                refused: more,
            } => {
                at += units;
                stored += items;
                refused += more;
            }
        }
    }
    End::Whole { refused }
}

// The number of items, and their rows.
fn put_items(
    form: Form,
    u: usize,
    tables: &Tables,
    s: &[u8],
    out: &mut [u8],
    known: usize,
    n: usize,
) -> End
    requires { Counted form u tables.now s.now known n out.old }
    ensures { Ends form s.now out.old n result out.new }
{
    report_rows::put_number(out, 0, n);
    put_all(form, u, tables, s, out, known, n)
}

// Writes the report of a stream, which has n items.
fn fill(
    form: Form,
    u: usize,
    tables: &Tables,
    s: &[u8],
    out: &mut [u8],
    known: usize,
    n: usize,
) -> usize
    requires { Counted form u tables.now s.now known n out.old }
    ensures { Written form s.now out.old result out.new }
{
    let end = put_items(form, u, tables, s, out, known, n);
    report_last::put_last(out, 4 + 9 * n, end)
}

// ---- the calls

// By the tables.
fn report_by(
    form: Form,
    u: usize,
    tables: &Tables,
    s: &[u8],
    out: &mut [u8],
    known: usize,
) -> Result<usize, Refusal<usize>>
    requires { Read form u tables.now s.now known }
    ensures { Answered form s.now out.old result out.new }
{
    let n = report_count::count(form, tables, s, known);
    if out.len() < 17 + 18 * n {
        return Err(Refusal {
            number: 3,
            place: 0,
        });
    }
    let length = fill(form, u, tables, s, out, known, n);
    Ok(length)
}

// Of a stream within the limit. The limit is looked at by the calls themselves: where the compiler knows it here, it stores a row byte
// by byte.
fn report(form: Form, s: &[u8], out: &mut [u8]) -> Result<usize, Refusal<usize>>
    requires { length s.now ≤ (domain form).limit }
    ensures { Answered form s.now out.old result out.new }
{
    let tables = Tables::new();
    let known = report_first::known(form, s, 0, 0);
    report_by(form, report_units::unit(form), &tables, s, out, known)
}

// The report of a text in a buffer: its length, or 1 or 3, placed at 0, which leave the buffer as it was.
pub fn report_text(s: &[u8], out: &mut [u8]) -> Result<usize, Refusal<usize>>
    ensures value { result ≡ report_answer text s.now (length out.old) }
    ensures out_after { out.new ≡ report_left result text s.now out.old }
{
    if 4194304 < s.len() {
        return Err(Refusal {
            number: 1,
            place: 0,
        });
    }
    report(Form::Text, s, out)
}

// The report of a binary.
pub fn report_binary(s: &[u8], out: &mut [u8]) -> Result<usize, Refusal<usize>>
    ensures value { result ≡ report_answer binary s.now (length out.old) }
    ensures out_after { out.new ≡ report_left result binary s.now out.old }
{
    if 3145728 < s.len() {
        return Err(Refusal {
            number: 1,
            place: 0,
        });
    }
    report(Form::Binary, s, out)
}
