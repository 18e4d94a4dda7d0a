// A state of pieces (02 f) that C lends, by value: to a state, and back. Nothing is decided here.
#![tactic(auto)]

ghost use Rattle.std.specs.Prelude.{◌≡◌, [], ◌∷◌, ◌%◌, length};
ghost use Rattle.format.specs.Judging.{max_depth};
ghost use Rattle.exports_values.specs.Lent.{state_of};
ghost use Rattle.exports_pieces_state.specs.Numbers.{all_under, is_narrow, phase_in, progress_in, pieces_with, pieces_in, phase_number, rest_of, numbers_of};
ghost use Rattle.exports_pieces_state.specs.Back.{Bytes, Typed};

use exports_values::STATE;
use pieces::{Phase, Pieces, Progress};
use walk_state::Walk;

// Numbers behind the walk's, and in all.
const REST: usize = 18;

pub const PIECES: usize = STATE + 19;

// Where they begin.
const BEHIND: usize = STATE + 1;

// ---- from numbers to a state

fn byte(x: usize) -> u8
    ensures { result ≡ x % 256 }
{
    (x % 256) as u8
}

#[tactic(auto, unfolding(crate::specs::Numbers::all_under))]
fn are_under(m: usize, a: usize, b: usize, c: usize, d: usize) -> bool
    ensures { result ≡ all_under m (a ∷ b ∷ c ∷ d ∷ []) }
{
    if m <= a {
        return false;
    }
    if m <= b {
        return false;
    }
    if m <= c {
        return false;
    }
    d < m
}

// What is a mark is 0 or 1, and what is a number of 8 bits is below 256.
#[tactic(auto, unfolding(crate::specs::Numbers::is_narrow))]
fn is_narrow(t: [usize; REST]) -> bool
    ensures { result ≡ is_narrow t }
{
    if !are_under(256, t[1], t[2], t[3], t[4]) {
        return false;
    }
    if !are_under(256, t[5], t[6], t[7], t[8]) {
        return false;
    }
    if !are_under(256, t[13], t[14], t[15], t[16]) {
        return false;
    }
    if 2 <= t[5] {
        return false;
    }
    t[7] < 2
}

// Numbers that are no state's are read as a state after the end.
#[tactic(auto, unfolding(crate::specs::Numbers::phase_in))]
fn phase_in(t: [usize; REST]) -> Phase
    ensures { result ≡ phase_in t }
{
    if !is_narrow(t) {
        return Phase::Ended;
    }
    if t[12] == 0 {
        return Phase::Framing;
    }
    if t[12] == 1 {
        return Phase::Unframed;
    }
    Phase::Ended
}

#[tactic(auto, unfolding(crate::specs::Numbers::progress_in))]
fn progress_in(walk: Walk, t: [usize; REST]) -> Progress
    ensures { result ≡ progress_in walk t }
{
    let phase = phase_in(t);
    let header = [byte(t[1]), byte(t[2]), byte(t[3]), byte(t[4])];
    Progress {
        walk,
        read: t[0],
        header,
        scans: t[5] == 1,
        lead: byte(t[6]),
        text: t[7] == 1,
        number: byte(t[8]),
        place: t[9],
        start: t[10],
        items: t[11],
        phase,
    }
}

#[tactic(auto, unfolding(crate::specs::Numbers::pieces_with))]
fn pieces_with(unit: usize, walk: Walk, t: [usize; REST]) -> Pieces
    ensures { result ≡ pieces_with unit walk t }
{
    let progress = progress_in(walk, t);
    let held = [byte(t[13]), byte(t[14]), byte(t[15]), byte(t[16])];
    Pieces {
        unit,
        progress,
        held,
        count: t[17],
    }
}

#[tactic(auto, unfolding(crate::specs::Numbers::pieces_in))]
pub fn pieces_of(s: [usize; PIECES]) -> Pieces
    ensures { result ≡ pieces_in s }
{
    let mut w = [0; STATE];
    let mut t = [0; REST];
    w.copy_from_slice(&s[1..BEHIND]);
    t.copy_from_slice(&s[BEHIND..]);
    let walk = exports_state::walk_of(w);
    pieces_with(s[0], walk, t)
}

// ---- and back

#[tactic(auto, unfolding(crate::specs::Numbers::phase_number))]
fn phase_number(phase: Phase) -> usize
    ensures { result ≡ phase_number phase }
{
    match phase {
        Phase::Framing => 0,
        Phase::Unframed => 1,
        Phase::Ended => 2,
    }
}

fn four(h: [u8; 4]) -> [usize; 4]
    ensures { (result ≡ h) × Bytes h }
{
    h.map(usize::from)
}

fn rest_of(p: Progress, held: [u8; 4], count: usize) -> [usize; REST]
    ensures { (result ≡ rest_of p held count) × Typed p held }
{
    let phase = p.phase;
    let header = p.header;
    let h = four(header);
    let k = four(held);
    [
        p.read,
        h[0],
        h[1],
        h[2],
        h[3],
        exports_values::mark_of(p.scans),
        usize::from(p.lead),
        exports_values::mark_of(p.text),
        usize::from(p.number),
        p.place,
        p.start,
        p.items,
        phase_number(phase),
        k[0],
        k[1],
        k[2],
        k[3],
        count,
    ]
}

fn walk_numbers(w: Walk) -> [usize; STATE]
    ensures { (result ≡ state_of w) × (length w.ends ≡ max_depth) }
{
    exports_state::state_of(w)
}

// A state that was written is read back as it was.
pub fn numbers_of(st: Pieces) -> [usize; PIECES]
    ensures { (result ≡ numbers_of st) × (pieces_in result ≡ st) }
{
    let p = st.progress;
    let walk = p.walk;
    let held = st.held;
    let w = walk_numbers(walk);
    let t = rest_of(p, held, st.count);
    let mut s = [0; PIECES];
    s[0] = st.unit;
    s[1..BEHIND].copy_from_slice(&w);
    s[BEHIND..].copy_from_slice(&t);
    s
}
