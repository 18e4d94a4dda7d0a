// The end of a stream in pieces (02 f): 13, 3, else the row of the remainder, if there is one, and a state that takes no more calls. Refused,
// the state and the buffer stay as they were. Assumes nothing of the state.
#![tactic(auto)]

ghost use Rattle.std.specs.Prelude.{◌≡◌, [], ◌∷◌, ◌++◌, ◌+◌, ◌*◌, ◌≤◌, ltb, length};
ghost use Rattle.format.specs.Units.{domain};
ghost use Rattle.format.specs.Judging.{max_depth};
ghost use Rattle.format.specs.Report.{be4};
ghost use Rattle.report_rows.specs.Stores.{put};
ghost use Rattle.pieces.specs.Feeding.{number_at};
ghost use Rattle.pieces.specs.Calls.{ended_progress, finish, remainder_left};
ghost use Rattle.pieces_end.specs.Ends.{kept, told};

use format::{Form, Refusal};
use pieces::{Closed, Phase, Pieces, Progress};

// ---- what the call answers

// Refused: nothing is told.
fn kept(st: Pieces, number: u8) -> Closed
    ensures { result ≡ kept st number }
{
    Closed {
        next: st,
        closing: Err(Refusal { number, place: 0 }),
    }
}

fn ended_progress(p: Progress) -> Progress
    ensures { result ≡ ended_progress p }
{
    let walk = p.walk;
    let header = p.header;
    Progress {
        walk,
        read: p.read,
        header,
        scans: p.scans,
        lead: p.lead,
        text: p.text,
        number: p.number,
        place: p.place,
        start: p.start,
        items: p.items,
        phase: Phase::Ended,
    }
}

// The end is told, with a row of so many bytes.
fn told(st: Pieces, n: usize) -> Closed
    ensures { result ≡ told st n }
{
    let p = st.progress;
    let held = st.held;
    let progress = ended_progress(p);
    let next = Pieces {
        unit: st.unit,
        progress,
        held,
        count: st.count,
    };
    Closed {
        next,
        closing: Ok(n),
    }
}

// ---- the remainder

// There is one: something came behind the last item.
fn is_left(form: Form, p: Progress, count: usize) -> bool
    ensures { (p.start ≤ p.read → result ≡ ltb (p.start * (domain form).unit) (p.read * (domain form).unit + count)) × (length p.walk.ends ≡ max_depth) }
{
    if p.start < p.read { true } else { 0 < count }
}

// What is under way is cut off, which is 4.
fn number_at(phase: Phase, number: u8) -> u8
    ensures { result ≡ number_at phase number }
{
    match phase {
        Phase::Framing => 4,
        Phase::Unframed => number,
        Phase::Ended => number,
    }
}

fn offset_of(form: Form, start: usize) -> usize
    requires { start ≤ 1048576 }
    ensures { result ≡ start * (domain form).unit }
{
    match form {
        Form::Text => 4 * start,
        Form::Binary => 3 * start,
    }
}

// Its row.
fn put_rest(form: Form, p: Progress, out: &mut [u8])
    requires { p.start ≤ 1048576 }
    ensures { out.new ≡ put out.old 0 (be4 (p.start * (domain form).unit) ++ (number_at p.phase p.number ∷ [])) }
{
    let phase = p.phase;
    let number = number_at(phase, p.number);
    report_rows::put_told(out, 0, offset_of(form, p.start), number);
}

// ---- the end

pub fn end(form: Form, st: Pieces, out: &mut [u8]) -> Closed
    ensures value { result ≡ finish (domain form) st (length out.old) }
    ensures out_after { out.new ≡ remainder_left result.closing (domain form) st out.old }
{
    if !pieces_asked::is_fit(form, st) {
        return kept(st, 13);
    }
    let p = st.progress;
    if !is_left(form, p, st.count) {
        return told(st, 0);
    }
    if out.len() < 5 {
        return kept(st, 3);
    }
    put_rest(form, p, out);
    told(st, 5)
}
