// A state of pieces (02 f) whose walk's ends are lent, so that a unit copies none of them: what a unit makes of it once it is known what the
// unit is.
#![tactic(auto)]

ghost use Rattle.std.specs.Prelude.{◌≡◌, ◌≤◌, length};
ghost use Rattle.std.proofs.Math.Bool as Bool;
ghost use Rattle.format.specs.Judging.{max_depth};
ghost use Rattle.walk_state.specs.Lent.{walk_at};
ghost use Rattle.pieces.specs.Headers.{room_of};
ghost use Rattle.pieces.specs.Steps.{clear, end_of, made, refused, settled};
ghost use Rattle.pieces_stage.specs.Stages.{progress_at, Becomes, Cleared, far, made_stage, unframed_stage, stored_stage, whole_stage, told_stage};

use judging::MAX_DEPTH;
use pieces::Phase;
use walk_state::Place;

// The state but the ends: as pieces::Progress has it, with the walk's place.
#[derive(Clone, Copy)]
pub struct Stage {
    pub walk: Place,
    pub read: usize,
    pub header: [u8; 4],
    pub scans: bool,
    pub lead: u8,
    pub text: bool,
    pub number: u8,
    pub place: usize,
    pub start: usize,
    pub items: usize,
    pub phase: Phase,
}

// More units than any state has read or is led to.
const FAR: usize = 2147483648;

// ---- questions to the walk's place

// Units to the innermost end; at top level as many as any header may ask for. 0 with more open than there are slots.
pub fn room_of(slots: &[usize], p: Place) -> usize
    ensures { max_depth ≤ length slots.now → p.depth ≤ max_depth → result ≡ room_of (walk_at slots.now p) }
{
    let depth = p.depth;
    if depth == 0 {
        return 1073741826;
    }
    if MAX_DEPTH < depth {
        return 0;
    }
    if slots.len() < MAX_DEPTH {
        return 0;
    }
    slots[depth - 1].saturating_sub(p.at)
}

// Where the top-level item ends that the walk stands in, or behind.
fn end_of(slots: &[usize], p: Place) -> usize
    requires { max_depth ≤ length slots.now }
    ensures { result ≡ end_of (walk_at slots.now p) }
{
    if p.depth == 0 {
        return p.at;
    }
    slots[0]
}

// ---- one unit more

fn made(g: Stage, walk: Place, scans: bool, lead: u8, text: bool, number: u8, place: usize) -> Stage
    requires { g.read ≤ far }
    ensures { result ≡ made_stage g walk scans lead text number place }
{
    let phase = g.phase;
    Stage {
        walk,
        read: g.read + 1,
        header: [0; 4],
        scans,
        lead,
        text,
        number,
        place,
        start: g.start,
        items: g.items,
        phase,
    }
}

fn clear(slots: &mut [usize])
    requires { max_depth ≤ length slots.old }
    ensures { Cleared slots.old slots.new }
{
    slots[..MAX_DEPTH].fill(0);
}

// Refused: none open, at the top-level item's end.
fn refused_at(slots: &mut [usize], g: Stage, end: usize, number: u8, place: usize) -> Stage
    requires { (max_depth ≤ length slots.old) × (g.read ≤ far) }
    ensures { Becomes slots.old slots.new result (made (progress_at slots.old g) (clear end) Bool.false 0 Bool.false number place) }
{
    clear(slots);
    let walk = Place {
        depth: 0,
        at: end,
        first: false,
        indexed: false,
    };
    made(g, walk, false, 0, false, number, place)
}

// Refused within an item that the walk stands in, or behind.
pub fn refused(slots: &mut [usize], g: Stage, w: Place, number: u8, place: usize) -> Stage
    ensures { max_depth ≤ length slots.old → g.read ≤ far → Becomes slots.old slots.new result (refused (progress_at slots.old g) (walk_at slots.old w) number place) }
{
    if slots.len() < MAX_DEPTH {
        return g;
    }
    if FAR < g.read {
        return g;
    }
    let end = end_of(slots, w);
    refused_at(slots, g, end, number, place)
}

// An item behind which the walk stands at w: accepted, unless a stranger or its number says otherwise.
pub fn settled(
    slots: &mut [usize],
    g: Stage,
    w: Place,
    lead: u8,
    text: bool,
    number: u8,
    place: usize,
) -> Stage
    ensures { max_depth ≤ length slots.old → g.read ≤ far → Becomes slots.old slots.new result (settled (progress_at slots.old g) (walk_at slots.old w) lead text number place) }
{
    if FAR < g.read {
        return g;
    }
    if g.read + 1 < w.at {
        return made(g, w, true, lead, text, number, place);
    }
    if number == 0 {
        return made(g, w, false, 0, false, 0, 0);
    }
    refused(slots, g, w, number, place)
}

// A unit that is not looked at.
pub fn passed(g: Stage) -> Stage
    ensures { g.read ≤ far → result ≡ made_stage g g.walk Bool.false 0 Bool.false g.number g.place }
{
    if FAR < g.read {
        return g;
    }
    let walk = g.walk;
    made(g, walk, false, 0, false, g.number, g.place)
}

// The remainder begins.
pub fn unframed(g: Stage, number: u8) -> Stage
    ensures { g.read ≤ far → result ≡ unframed_stage g number }
{
    if FAR < g.read {
        return g;
    }
    let walk = g.walk;
    Stage {
        walk,
        read: g.read + 1,
        header: [0; 4],
        scans: false,
        lead: 0,
        text: false,
        number,
        place: 0,
        start: g.start,
        items: g.items,
        phase: Phase::Unframed,
    }
}

// The first unit of a header of two.
pub fn stored(g: Stage, q: [u8; 4]) -> Stage
    ensures { g.read ≤ far → result ≡ stored_stage g q }
{
    if FAR < g.read {
        return g;
    }
    let walk = g.walk;
    let phase = g.phase;
    Stage {
        walk,
        read: g.read + 1,
        header: q,
        scans: false,
        lead: 0,
        text: false,
        number: 0,
        place: 0,
        start: g.start,
        items: g.items,
        phase,
    }
}

// ---- an item's last unit

// Whether a top-level item's last unit was read.
pub fn is_whole(g: Stage) -> bool
    ensures { result ≡ whole_stage g }
{
    let phase = g.phase;
    match phase {
        Phase::Framing => {
            if g.walk.depth != 0 {
                return false;
            }
            if g.read != g.walk.at {
                return false;
            }
            g.start < g.read
        }
        Phase::Unframed => false,
        Phase::Ended => false,
    }
}

// The next item starts behind it.
pub fn told(g: Stage) -> Stage
    ensures { g.items ≤ far → result ≡ told_stage g }
{
    if FAR < g.items {
        return g;
    }
    let walk = g.walk;
    let phase = g.phase;
    Stage {
        walk,
        read: g.read,
        header: [0; 4],
        scans: false,
        lead: 0,
        text: false,
        number: 0,
        place: 0,
        start: g.read,
        items: g.items + 1,
        phase,
    }
}
