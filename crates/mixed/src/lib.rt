// Streams that change form at top level, as definitions: see specs/, in 02's order. There is no code here.
#![tactic(auto)]

use format::Form;

// What the first byte of a top-level item says of it.
#[derive(Clone, Copy)]
pub enum Start {
    Cesr(Form),
    Json,
    Other,
}
