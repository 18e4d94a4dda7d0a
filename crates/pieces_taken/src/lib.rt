// A piece taken in (02 f), the state by value: the state behind it, and the rows that it completes, counted and, where there is room, stored.
#![tactic(auto)]

ghost use Rattle.std.specs.Prelude.{◌≡◌, ◌+◌, ◌≤◌, length};
ghost use Rattle.std.proofs.Math.Bool as Bool;
ghost use Rattle.format.specs.Units.{domain};
ghost use Rattle.format.specs.Judging.{max_depth};
ghost use Rattle.pieces.specs.Feeding.{taken};
ghost use Rattle.pieces.specs.Calls.{is_fit};
ghost use Rattle.pieces_stage.specs.Stages.{progress_at};
ghost use Rattle.pieces_taken.specs.Taking.{holding_all, Took};

use format::Form;
use judging::MAX_DEPTH;
use pieces::{Pieces, Progress};
use pieces_stage::Stage;
use walk_state::Walk;

// The state behind a piece, and how many items and refusals it gave.
#[derive(Clone, Copy)]
pub struct Ahead {
    pub next: Pieces,
    pub items: usize,
    pub refusals: usize,
}

// ---- a state, and its walk's ends beside it

pub fn stage_of(p: Progress) -> Stage
    ensures { (progress_at p.walk.ends result ≡ p) × (length p.walk.ends ≡ max_depth) }
{
    let w = p.walk;
    let header = p.header;
    let phase = p.phase;
    Stage {
        walk: w.place(),
        read: p.read,
        header,
        scans: p.scans,
        lead: p.lead,
        text: p.text,
        number: p.number,
        place: p.place,
        start: p.start,
        items: p.items,
        phase,
    }
}

fn walk_with(ends: [usize; MAX_DEPTH], g: Stage) -> Walk
    ensures { result ≡ (progress_at ends g).walk }
{
    let p = g.walk;
    Walk {
        ends,
        depth: p.depth,
        at: p.at,
        first: p.first,
        indexed: p.indexed,
    }
}

fn progress_with(ends: [usize; MAX_DEPTH], g: Stage) -> Progress
    ensures { result ≡ progress_at ends g }
{
    let header = g.header;
    let phase = g.phase;
    Progress {
        walk: walk_with(ends, g),
        read: g.read,
        header,
        scans: g.scans,
        lead: g.lead,
        text: g.text,
        number: g.number,
        place: g.place,
        start: g.start,
        items: g.items,
        phase,
    }
}

// ---- a piece

// The state with what is left behind the last whole unit.
fn holding(form: Form, st: Pieces, progress: Progress, piece: &[u8]) -> Pieces
    requires { st.count ≤ 4 }
    ensures { (result ≡ holding_all (domain form) st progress piece.now) × (length st.held ≡ 4) }
{
    let held = st.held;
    let rest = pieces_units::rest(form, held, st.count, piece);
    Pieces {
        unit: st.unit,
        progress,
        held: rest,
        count: pieces_units::left(form, st.count + piece.len()),
    }
}

// A piece within the limit, to a state that is fit. Of any other it is said only that the call returns.
pub fn take_in(form: Form, st: Pieces, piece: &[u8], items: &mut [u8], refusals: &mut [u8]) -> Ahead
    ensures { is_fit (domain form) st ≡ Bool.true → taken (domain form) st + length piece.now ≤ (domain form).limit → Took (domain form) st piece.now items.old items.new refusals.old refusals.new result }
{
    if 4 < st.count {
        return Ahead {
            next: st,
            items: 0,
            refusals: 0,
        };
    }
    let p = st.progress;
    let w = p.walk;
    let held = st.held;
    let mut ends = w.ends;
    let g = stage_of(p);
    let r = pieces_run::run(form, &mut ends, g, held, st.count, piece, items, refusals);
    let stage = r.stage;
    let progress = progress_with(ends, stage);
    Ahead {
        next: holding(form, st, progress, piece),
        items: r.items,
        refusals: r.refusals,
    }
}
