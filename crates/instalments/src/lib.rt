// An instalment of the walk, on by at most a stated number of items: what it gives, the state, how many they were, and why it is over. Its
// definition and what is claimed of it stand in specs/; the walk itself is in instalments_walk.
#![tactic(auto)]

use walk_state::{Place, Walk};

// Why an instalment is over: the budget is used up, or the end or a refusal came first. The place counts the stream's elements, or is a form's
// own offset.
#[derive(Clone, Copy)]
pub enum Pause<P> {
    Spent,
    End,
    Refused { number: u8, place: P },
}

// An instalment with the state by value: the state behind its items, and how many they are.
#[derive(Clone, Copy)]
pub struct Walked<P> {
    pub next: Walk,
    pub items: usize,
    pub pause: Pause<P>,
}

// The same with the state's ends in lent slots.
#[derive(Clone, Copy)]
pub struct Went {
    pub place: Place,
    pub items: usize,
    pub pause: Pause<usize>,
}
