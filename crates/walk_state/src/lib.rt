// The walk's state, a value, and what a step of the walk finds. Positions, ends and sizes in the state count units, which both forms
// share, so that no offset of one form can be taken for the other's.
#![tactic(auto)]

ghost use Rattle.std.specs.Prelude.{◌≡◌, ◌≤◌, length};
ghost use Rattle.format.specs.Judging.{max_depth};
ghost use Rattle.walk_state.specs.Walking.{start};
ghost use Rattle.walk_state.specs.Moving.{finished, entered, step_over};
ghost use Rattle.walk_state.specs.Lent.{walk_at, still_at, Closes, Moves};

use format::Kind;
use nesting::MAX_DEPTH;

// ends: the ends of the open groups, outermost first, unused slots 0; depth: how many are open; at: the position; first: whether
// the next item is first in an overrideable group; indexed: whether the innermost open group holds indexed items.
#[derive(Clone, Copy)]
pub struct Walk {
    pub ends: [usize; MAX_DEPTH],
    pub depth: usize,
    pub at: usize,
    pub first: bool,
    pub indexed: bool,
}

// The state but the ends, which who has them lends: the first MAX_DEPTH numbers of a slice. So a step copies none of them.
#[derive(Clone, Copy)]
pub struct Place {
    pub depth: usize,
    pub at: usize,
    pub first: bool,
    pub indexed: bool,
}

// What a step finds. The code is the kind with the header's units, which tell small from large. Offset and size count units or, as
// the definition says, elements of the stream, or are a form's own offsets, which are never taken for the other's.
#[derive(Clone, Copy)]
pub enum Found<P> {
    Item {
        offset: P,
        size: P,
        depth: usize,
        kind: Kind,
        head: usize,
    },
    Refused {
        number: u8,
        place: P,
    },
    End,
}

#[derive(Clone, Copy)]
pub struct Stepped<P> {
    pub next: Walk,
    pub found: Found<P>,
}

// ---- the next state, in lent slots

// Groups whose end is reached, innermost first; how many are open then.
fn close(slots: &mut [usize], depth: usize, at: usize) -> usize
    requires { (depth ≤ max_depth) × (max_depth ≤ length slots.old) }
    ensures { Closes slots.old slots.new depth at result }
{
    for top in (0..depth).rev() {
        if slots[top] != at {
            return top + 1;
        }
        slots[top] = 0;
    }
    0
}

// A place where so many groups are still open: the mark of indexed items goes with the first that closes.
fn still_open(p: Place, still: usize) -> Place
    ensures { result ≡ still_at p still }
{
    Place {
        depth: still,
        at: p.at,
        first: p.first,
        indexed: if still == p.depth { p.indexed } else { false },
    }
}

// With more open than there are slots all stays as it is.
fn finish(slots: &mut [usize], p: Place) -> Place
    requires { max_depth ≤ length slots.old }
    ensures { Moves slots.old slots.new result (finished (walk_at slots.old p)) }
{
    if MAX_DEPTH < p.depth {
        return p;
    }
    let still = close(slots, p.depth, p.at);
    still_open(p, still)
}

// Into a group with contents from at to end; mark: 7 is asked of its first item, if it has one; indexed: its items are indexed ones. With no
// slot left all stays as it is.
fn enter(slots: &mut [usize], p: Place, at: usize, end: usize, mark: bool, indexed: bool) -> Place
    requires { max_depth ≤ length slots.old }
    ensures { Moves slots.old slots.new result (entered (walk_at slots.old p) at end mark indexed) }
{
    let depth = p.depth;
    if MAX_DEPTH <= depth {
        return p;
    }
    slots[depth] = end;
    Place {
        depth: depth + 1,
        at,
        first: if at < end { mark } else { false },
        indexed,
    }
}

// A step over an item with contents from at to end: into them if they are items, as Walk::open_group, else past them. Groups whose end
// is reached close. Too few slots stay as they are.
pub fn advance(
    slots: &mut [usize],
    p: Place,
    at: usize,
    end: usize,
    opens: bool,
    mark: bool,
    indexed: bool,
) -> Place
    ensures { max_depth ≤ length slots.old → Moves slots.old slots.new result (step_over (walk_at slots.old p) at end opens mark indexed) }
{
    if slots.len() < MAX_DEPTH {
        return p;
    }
    if opens {
        let inside = enter(slots, p, at, end, mark, indexed);
        return finish(slots, inside);
    }
    let past = Place {
        depth: p.depth,
        at: end,
        first: false,
        indexed: p.indexed,
    };
    finish(slots, past)
}

// ---- the state by value

impl Walk {
    // None open, at the stream's start.
    #[tactic(auto, unfolding(crate::specs::Walking::start))]
    pub fn new() -> Walk
        ensures { result ≡ start }
    {
        Walk {
            ends: [0; MAX_DEPTH],
            depth: 0,
            at: 0,
            first: false,
            indexed: false,
        }
    }

    // All but the ends.
    pub fn place(self) -> Place
        ensures { walk_at self.ends result ≡ self }
    {
        Place {
            depth: self.depth,
            at: self.at,
            first: self.first,
            indexed: self.indexed,
        }
    }

    // Groups whose end is reached, innermost first. A state with more open than there are slots stays as it is.
    pub fn close_finished(self) -> Walk
        ensures { result ≡ finished self }
    {
        let mut ends = self.ends;
        let p = finish(&mut ends, self.place());
        Walk {
            ends,
            depth: p.depth,
            at: p.at,
            first: p.first,
            indexed: p.indexed,
        }
    }

    // Into a group with contents from at to end; mark: 7 is asked of its first item, if it has one; indexed: its items are indexed ones. A
    // state with no slot left stays as it is.
    pub fn open_group(self, at: usize, end: usize, mark: bool, indexed: bool) -> Walk
        ensures { result ≡ entered self at end mark indexed }
    {
        let mut ends = self.ends;
        let p = enter(&mut ends, self.place(), at, end, mark, indexed);
        Walk {
            ends,
            depth: p.depth,
            at: p.at,
            first: p.first,
            indexed: p.indexed,
        }
    }

    // A step over an item with contents from at to end: into them if they are items, else past them. Groups whose end is reached close.
    pub fn step(self, at: usize, end: usize, opens: bool, mark: bool, indexed: bool) -> Walk
        ensures { result ≡ step_over self at end opens mark indexed }
    {
        let mut ends = self.ends;
        let p = advance(&mut ends, self.place(), at, end, opens, mark, indexed);
        Walk {
            ends,
            depth: p.depth,
            at: p.at,
            first: p.first,
            indexed: p.indexed,
        }
    }
}
