// One unit more (02 f): what it is, by where the walk stands and how far was read, and what it makes of the state.
#![tactic(auto)]

ghost use Rattle.std.specs.Prelude.{◌≡◌, ◌++◌, List, ℕ, ◌≤◌, ◌+◌, length};
ghost use Rattle.format.specs.declared.Framed.TheVariants.{Item};
ghost use Rattle.format.specs.declared.Verdict.TheVariants.{Refused};
ghost use Rattle.format.specs.Alphabet.{stranger_number};
ghost use Rattle.pieces.specs.declared.Phase.TheVariants as Phase;
ghost use Rattle.format.specs.Judging.{max_depth, scan};
ghost use Rattle.framing_head.specs.Heads.{head_of};
ghost use Rattle.walk_state.specs.Walking.{next_of};
ghost use Rattle.walk_state.specs.Lent.{walk_at, Moves};
ghost use Rattle.walk.specs.Stepping.{Slotted};
ghost use Rattle.pieces.specs.Headers.{asks7, framed_by, head_number, lead_of, opens_text, value_number};
ghost use Rattle.pieces.specs.Steps.{settled, headed, at_first, at_second, valued, step_by, unit_step};
ghost use Rattle.pieces_stage.specs.Stages.{progress_at, Becomes, far};
ghost use Rattle.pieces_step.specs.Ready.{Ready, Bounded, Near};

use format::{Framed, Kind, Verdict};
use pieces::Phase;
use pieces_stage::Stage;
use walk_state::Place;

// More units than any state has read or is led to.
const FAR: usize = 2147483648;

// ---- a header's sextets, 0 behind them

fn one_head(q: [u8; 4]) -> [u8; 12]
    ensures { result ≡ head_of q }
{
    let mut cs = [0; 12];
    cs[..4].copy_from_slice(&q);
    cs
}

fn two_head(a: [u8; 4], q: [u8; 4]) -> [u8; 12]
    ensures { (result ≡ head_of (a ++ q)) × (length a ≡ 4) }
{
    let mut cs = [0; 12];
    cs[..4].copy_from_slice(&a);
    cs[4..8].copy_from_slice(&q);
    cs
}

// ---- the unit behind a header

// 8, 16, where the header gave no number.
fn value_number(number: u8, lead: u8, text: bool, q: [u8; 4]) -> u8
    requires { lead ≤ 2 }
    ensures { result ≡ value_number number lead text q }
{
    if number != 0 {
        return number;
    }
    let cs = one_head(q);
    if !judging_bits::zero_bits(cs, 0, 8 * u32::from(lead)) {
        return 8;
    }
    if !text {
        return 0;
    }
    if judging_fill::text_filled(0, lead, 1, 0, cs) {
        0
    } else {
        16
    }
}

// ---- a whole header

// 7 is asked at top level, and where the mark is set.
fn is_asked(p: Place) -> bool
    ensures { (slots : List ℕ) → result ≡ asks7 (walk_at slots p) }
{
    if p.depth == 0 { true } else { p.first }
}

// By its sextets.
fn framed_by(slots: &[usize], p: Place, cs: [u8; 12]) -> Framed
    requires { (max_depth ≤ length slots.now) × (p.depth ≤ max_depth) }
    ensures { (hs : List ℕ) → cs ≡ head_of hs → result ≡ framed_by (walk_at slots.now p) hs }
{
    let room = pieces_stage::room_of(slots, p);
    let first = is_asked(p);
    framing::frame_next_head(p.indexed, first, cs, room)
}

// The walk's place behind an item, or in a group.
fn next_place(slots: &mut [usize], w: Place, kind: Kind, head: usize, size: usize) -> Place
    requires { (max_depth ≤ length slots.old) × (w.depth ≤ max_depth) × Slotted kind w.depth × (w.at ≤ far) × (head ≤ size) × (size ≤ far) }
    ensures { Moves slots.old slots.new result (next_of (walk_at slots.old w) kind head size) }
{
    let at = w.at;
    let opens = report_next::is_entered(kind);
    let mark = report_next::is_ruled(kind);
    let indexed = report_next::holds_indexed(kind);
    walk_state::advance(slots, w, at + head, at + size, opens, mark, indexed)
}

// An item behind which the walk stands there, by what its header decides.
fn item_settled(
    slots: &mut [usize],
    g: Stage,
    next: Place,
    cs: [u8; 12],
    kind: Kind,
    head: usize,
    place: usize,
) -> Stage
    requires { (max_depth ≤ length slots.old) × (g.read ≤ far) }
    ensures { Becomes slots.old slots.new result (settled (progress_at slots.old g) (walk_at slots.old next) (lead_of kind) (opens_text kind) (head_number kind head cs) place) }
{
    let lead = pieces_numbers::lead_of(kind);
    let text = pieces_numbers::opens_text(kind);
    let number = pieces_numbers::head_number(kind, head, cs);
    pieces_stage::settled(slots, g, next, lead, text, number, place)
}

// A framed item.
fn headed_item(
    slots: &mut [usize],
    g: Stage,
    cs: [u8; 12],
    kind: Kind,
    head: usize,
    size: usize,
) -> Stage
    requires { Ready slots.old g × (head ≤ size) × (size ≤ far) }
    ensures { Becomes slots.old slots.new result (headed (progress_at slots.old g) cs (Item kind head size)) }
{
    let w = g.walk;
    let at = w.at;
    let number = pieces_numbers::group_number(kind, w.depth, head, size);
    if number != 0 {
        let moved = Place {
            depth: w.depth,
            at: at + size,
            first: false,
            indexed: w.indexed,
        };
        return pieces_stage::refused(slots, g, moved, number, 4 * at);
    }
    let next = next_place(slots, w, kind, head, size);
    item_settled(slots, g, next, cs, kind, head, 4 * at)
}

// A whole header, framed.
fn headed(slots: &mut [usize], g: Stage, cs: [u8; 12], framed: Framed) -> Stage
    requires { Ready slots.old g }
    ensures { Near framed → Becomes slots.old slots.new result (headed (progress_at slots.old g) cs framed) }
{
    match framed {
        Framed::Unframed { number, place } => {
            let w = g.walk;
            if w.depth == 0 {
                return pieces_stage::unframed(g, number);
            }
            if 7 < place {
                return g;
            }
            pieces_stage::refused(slots, g, w, number, 4 * w.at + place)
        }
        Framed::Item { kind, head, size } => {
            if FAR < size {
                return g;
            }
            if size < head {
                return g;
            }
            headed_item(slots, g, cs, kind, head, size)
        }
    }
}

// ---- the unit, by what it is

// A header's first unit.
fn at_first(slots: &mut [usize], g: Stage, q: [u8; 4]) -> Stage
    requires { Ready slots.old g }
    ensures { Bounded slots.old g → Becomes slots.old slots.new result (at_first (progress_at slots.old g) q) }
{
    let w = g.walk;
    let room = pieces_stage::room_of(slots, w);
    if pieces_numbers::is_long(w.indexed, q, room) {
        return pieces_stage::stored(g, q);
    }
    let cs = one_head(q);
    let framed = framed_by(slots, w, cs);
    headed(slots, g, cs, framed)
}

// Its second.
fn at_second(slots: &mut [usize], g: Stage, q: [u8; 4]) -> Stage
    requires { Ready slots.old g }
    ensures { Bounded slots.old g → Becomes slots.old slots.new result (at_second (progress_at slots.old g) q) }
{
    let w = g.walk;
    let first = g.header;
    let cs = two_head(first, q);
    let framed = framed_by(slots, w, cs);
    headed(slots, g, cs, framed)
}

// A character outside the alphabet, by its mark.
fn strange(v: u8, place: usize) -> Verdict
    ensures { result ≡ Refused (stranger_number v) place }
{
    let number = alphabet_numbers::stranger_number(v);
    Verdict::Refused { number, place }
}

// The first character of a unit outside the alphabet.
fn scan(q: [u8; 4]) -> Verdict
    ensures { result ≡ scan q }
{
    if 64 <= q[0] {
        return strange(q[0], 0);
    }
    if 64 <= q[1] {
        return strange(q[1], 1);
    }
    if 64 <= q[2] {
        return strange(q[2], 2);
    }
    if 64 <= q[3] {
        return strange(q[3], 3);
    }
    Verdict::Accepted
}

// A unit of a value.
fn valued(slots: &mut [usize], g: Stage, q: [u8; 4]) -> Stage
    requires { Ready slots.old g }
    ensures { Becomes slots.old slots.new result (valued (progress_at slots.old g) q (scan q)) }
{
    let w = g.walk;
    let v = scan(q);
    match v {
        Verdict::Accepted => {
            let number = value_number(g.number, g.lead, g.text, q);
            pieces_stage::settled(slots, g, w, 0, false, number, g.place)
        }
        Verdict::Refused { number, place } => {
            pieces_stage::refused(slots, g, w, number, 4 * g.read + place)
        }
    }
}

// A unit while items are framed.
fn framing(slots: &mut [usize], g: Stage, q: [u8; 4]) -> Stage
    requires { Ready slots.old g }
    ensures { Bounded slots.old g → Becomes slots.old slots.new result (step_by Phase.Framing (progress_at slots.old g) q) }
{
    let at = g.walk.at;
    if g.read < at {
        if g.scans {
            return valued(slots, g, q);
        }
        return pieces_stage::passed(g);
    }
    if at < g.read {
        return at_second(slots, g, q);
    }
    at_first(slots, g, q)
}

// A unit of four sextets. Of a state that is not ready it is said only that the call returns.
pub fn step(slots: &mut [usize], g: Stage, q: [u8; 4]) -> Stage
    ensures { Ready slots.old g → Bounded slots.old g → Becomes slots.old slots.new result (unit_step (progress_at slots.old g) q) }
{
    if slots.len() < judging::MAX_DEPTH {
        return g;
    }
    if judging::MAX_DEPTH < g.walk.depth {
        return g;
    }
    if FAR < g.walk.at {
        return g;
    }
    if FAR < g.read {
        return g;
    }
    if 2 < g.lead {
        return g;
    }
    let phase = g.phase;
    match phase {
        Phase::Framing => framing(slots, g, q),
        Phase::Unframed => pieces_stage::passed(g),
        Phase::Ended => pieces_stage::passed(g),
    }
}
