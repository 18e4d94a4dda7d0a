// Streams that arrive in pieces (02 f): the state between pieces, and what the calls answer. What they mean is defined in specs/; there is
// no code here.
#![tactic(auto)]

use format::Refusal;
use walk_state::Walk;

// Whether items are framed, or the remainder has begun, or the end was told.
#[derive(Clone, Copy)]
pub enum Phase {
    Framing,
    Unframed,
    Ended,
}

// The state in whole units. walk: the walk's state behind the last header that was read, which runs ahead of read, the units read. The next
// unit is a header's first where the walk stands at it, a header's second where the walk stands one before it, else one of a value or of an
// item that is refused. header: the sextets of the first unit of a header of two, else 0. scans: strangers are asked for up to the walk's
// position. lead, text: the zero lead bytes that the next unit opens with, and whether it opens a text. number, place: the refusal of the
// top-level item, or what stands unless a stranger comes first; number 0 is none. start: where the top-level item or the remainder starts.
// items: how many were told.
#[derive(Clone, Copy)]
pub struct Progress {
    pub walk: Walk,
    pub read: usize,
    pub header: [u8; 4],
    pub scans: bool,
    pub lead: u8,
    pub text: bool,
    pub number: u8,
    pub place: usize,
    pub start: usize,
    pub items: usize,
    pub phase: Phase,
}

// unit: the elements to a unit, by which a text's state is told from a binary's. held: the elements of a unit that is not whole, so many as
// count says; unused places are 0.
#[derive(Clone, Copy)]
pub struct Pieces {
    pub unit: usize,
    pub progress: Progress,
    pub held: [u8; 4],
    pub count: usize,
}

// The lengths written of item rows and of refusal rows.
#[derive(Clone, Copy)]
pub struct Rows {
    pub items: usize,
    pub refusals: usize,
}

// The state behind a piece, with what it gave: rows, or a refusal, whose place is 0. At a refusal the state stays as it was.
#[derive(Clone, Copy)]
pub struct Fed {
    pub next: Pieces,
    pub given: Result<Rows, Refusal<usize>>,
}

// The state behind the end, with what it gave: the length written of the remainder's row, or a refusal, whose place is 0.
#[derive(Clone, Copy)]
pub struct Closed {
    pub next: Pieces,
    pub closing: Result<usize, Refusal<usize>>,
}
