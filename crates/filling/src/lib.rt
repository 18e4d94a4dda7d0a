// How the rows of a report fill a buffer: one law over any framing, any judge and any width of rows, in specs/, and how far it has come.
#![tactic(auto)]

// How far a report is stored: of so many items so many, and refused ones among them; the next one stands at a place of the stream.
#[derive(Clone, Copy)]
pub struct Position {
    pub items: usize,
    pub at: usize,
    pub stored: usize,
    pub refused: usize,
}
