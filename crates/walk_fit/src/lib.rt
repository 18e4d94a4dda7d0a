// Questions to a state of the walk whose ends are lent: whether it fits a stream, 13, and where its innermost group ends.
#![tactic(auto)]

ghost use Rattle.std.specs.Prelude.{◌≡◌, ◌<◌, ◌≤◌, length};
ghost use Rattle.format.specs.Judging.{max_depth};
ghost use Rattle.walk_state.specs.Walking.{all_below, slot_fits, is_fit, stop_of};
ghost use Rattle.walk_state.specs.Lent.{slots_in, walk_at};

use judging::MAX_DEPTH;
use walk_state::Place;

fn slot_fits(slots: &[usize], depth: usize, n: usize, k: usize) -> bool
    requires { (k < max_depth) × (max_depth ≤ length slots.now) }
    ensures { result ≡ slot_fits (slots_in slots.now) depth n k }
{
    let end = slots[k];
    if depth <= k {
        return end == 0;
    }
    if k == 0 {
        return end <= n;
    }
    let outer = slots[k - 1];
    end <= outer
}

fn slots_fit(slots: &[usize], depth: usize, n: usize) -> bool
    requires { max_depth ≤ length slots.now }
    ensures { result ≡ all_below (slot_fits (slots_in slots.now) depth n) max_depth }
{
    for k in 0..MAX_DEPTH {
        if !slot_fits(slots, depth, n, k) {
            return false;
        }
    }
    true
}

// Whether the state fits a stream of n whole units: else 13. One with too few slots fits none.
#[tactic(auto, unfolding(walk_state::specs::Walking::is_fit))]
pub fn is_fit(slots: &[usize], p: Place, n: usize) -> bool
    ensures { max_depth ≤ length slots.now → result ≡ is_fit (walk_at slots.now p) n }
{
    let depth = p.depth;
    if slots.len() < MAX_DEPTH {
        return false;
    }
    if MAX_DEPTH < depth {
        return false;
    }
    if n < p.at {
        return false;
    }
    if !slots_fit(slots, depth, n) {
        return false;
    }
    if depth == 0 {
        if p.indexed {
            return false;
        }
        return !p.first;
    }
    let inner = slots[depth - 1];
    p.at < inner
}

// Where the innermost group ends, or the stream of n units; 0 with more open than there are slots.
pub fn stop(slots: &[usize], p: Place, n: usize) -> usize
    ensures { max_depth ≤ length slots.now → result ≡ stop_of (walk_at slots.now p) n }
{
    let depth = p.depth;
    if depth == 0 {
        return n;
    }
    if MAX_DEPTH < depth {
        return 0;
    }
    if slots.len() < MAX_DEPTH {
        return 0;
    }
    slots[depth - 1]
}
