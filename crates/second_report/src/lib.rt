// The second judge's report (02 m), to be read by eye: items, refusals, remainder, of a text as it is and of a binary by its text in lent working
// room. It shares with the first engine conversion; no more. Starts count units, and a unit is so many elements of the stream.
#![tactic(auto)]

ghost use Rattle.std.specs.Prelude.{◌≡◌, [], ◌∷◌, ◌++◌, ◌+◌, ◌*◌, ◌≤◌, length};
ghost use Rattle.std.proofs.lemmas.List.Edits.{sets};
ghost use Rattle.format.specs.Units.{text, binary};
ghost use Rattle.format.specs.Report.{report_answer, report_left, rows_in, be4};
ghost use Rattle.second_claims.specs.Second.{second_binary, work_left};
ghost use Rattle.second_report.specs.Reports.{form_of, Given, Answered, Row, Put, Ended};

use format::{Framed, Refusal, Verdict};
use second::{Judged, next};
use second_framing::frame;

// How many items stand at top level before the end or the first that is not framed.
fn count(t: &[u8]) -> usize
    requires { length t.now ≤ 4194304 }
    ensures { (result ≡ length (rows_in text t.now)) × (result ≤ 1048576) }
{
    let mut start = 0;
    let mut n = 0;
    while let Framed::Item { size, .. } = frame(false, true, &t[4 * start..]) {
        start = start + size;
        n = n + 1;
    }
    n
}

// A number in four bytes, the highest first.
fn put(out: &mut [u8], p: usize, v: usize)
    requires { p + 4 ≤ length out.old }
    ensures { out.new ≡ sets out.old p (be4 v) }
{
    out[p..p + 4].copy_from_slice(&v.to_be_bytes()[4..]);
}

// Two numbers and a byte: an item's row, or a remainder behind its count.
fn put_row(out: &mut [u8], p: usize, a: usize, b: usize, number: u8)
    requires { p + 9 ≤ length out.old }
    ensures { out.new ≡ sets out.old p (be4 a ++ (be4 b ++ (number ∷ []))) }
{
    put(out, p, a);
    put(out, p + 4, b);
    out[p + 8] = number;
}

// The i-th item, of n units, at a unit: its row, and at p its refusal's, if there is one: how many there are. A place counts from the stream's start.
fn put_at(out: &mut [u8], i: usize, p: usize, unit: usize, at: usize, n: usize, v: Verdict) -> usize
    requires { Row unit at n v i p (length out.old) }
    ensures { Put unit at n v i p out.old result out.new }
{
    let Verdict::Refused { number, place } = v else {
        put_row(out, 4 + 9 * i, unit * at, unit * n, 0);
        return 0;
    };
    put_row(out, 4 + 9 * i, unit * at, unit * n, number);
    put(out, p, i);
    out[p + 4] = number;
    put(out, p + 5, unit * (at + place / 4) + place % 4);
    1
}

// Behind the rows of n items the count of refusals, behind their k rows the count of remainders, and the one there may be.
fn put_end(
    out: &mut [u8],
    n: usize,
    k: usize,
    rest: usize,
    offset: usize,
    number: u8,
) -> Result<usize, Refusal<usize>>
    requires { (k ≤ n) × (n ≤ 4194304) × (17 + 18 * n ≤ length out.old) }
    ensures { Ended n k rest offset number out.old result out.new }
{
    let p = 8 + 9 * n + 9 * k;
    put(out, 4 + 9 * n, k);
    if rest == 0 {
        put(out, p, 0);
        return Ok(p + 4);
    }
    put_row(out, p, 1, offset, number);
    Ok(p + 9)
}

// The report of a stream, by the text it is judged by.
fn report(unit: usize, s: &[u8], t: &[u8], out: &mut [u8]) -> Result<usize, Refusal<usize>>
    requires { Given unit s.now t.now }
    ensures { Answered (form_of unit) s.now out.old result out.new }
{
    let n = count(t);
    if out.len() < 17 + 18 * n {
        return Err(Refusal {
            number: 3,
            place: 0,
        });
    }
    put(out, 0, n);
    let mut start = 0;
    let mut i = 0;
    let mut k = 0;
    while unit * start < s.len() {
        match next(false, true, &t[4 * start..], 0) {
            Judged::Unframed { number, .. } => return put_end(out, n, k, 1, unit * start, number),
            Judged::Item { size, verdict } => {
                k = k + put_at(out, i, 8 + 9 * n + 9 * k, unit, start, size, verdict);
                start = start + size;
                i = i + 1;
            }
        }
    }
    put_end(out, n, k, 0, 0, 0)
}

// ---- the calls

// The report of a text in a buffer: its length, or 1 or 3, which leave the buffer as it was.
pub fn report_text(stream: &[u8], out: &mut [u8]) -> Result<usize, Refusal<usize>>
    ensures value { result ≡ report_answer text stream.now (length out.old) }
    ensures out_after { out.new ≡ report_left result text stream.now out.old }
{
    if 4194304 < stream.len() {
        return Err(Refusal {
            number: 1,
            place: 0,
        });
    }
    report(4, stream, stream, out)
}

// The report of a binary, by the text of its whole triplets in lent working room: 1, then 3 where that is less.
pub fn report_binary(
    stream: &[u8],
    work: &mut [u8],
    out: &mut [u8],
) -> Result<usize, Refusal<usize>>
    ensures value { result ≡ second_binary stream.now (length work.old) (length out.old) }
    ensures work_after { work.new ≡ work_left stream.now work.old }
    ensures out_after { out.new ≡ report_left result binary stream.now out.old }
{
    let triplets = stream.len() / 3;
    if 3145728 < stream.len() {
        return Err(Refusal {
            number: 1,
            place: 0,
        });
    }
    if work.len() < 4 * triplets {
        return Err(Refusal {
            number: 3,
            place: 0,
        });
    }
    let _ = convert::binary_to_text(&stream[..3 * triplets], work);
    report(3, stream, &work[..4 * triplets], out)
}
