// Where a framed primitive's text starts, behind its fill, and how long it is. No stream is looked at. What is said holds of what framing
// gives: two header units and 1,048,576 units at most.
#![tactic(auto)]

ghost use Rattle.std.specs.Prelude.{◌≡◌, ◌-◌, ◌*◌, ◌≤◌};
ghost use Rattle.reading_fill.specs.Texts.{fill_by, text_start};

use format::{Kind, TextOffset};

// How many `A` stand in front of it: "take off one `A` if there is one", two or three.
fn fill_of(lead: u8, first: u8) -> usize
    ensures { (result ≡ fill_by lead first) × (result ≤ 256) }
{
    if lead == 0 {
        return if first == 0 { 1 } else { 0 };
    }
    usize::from(lead) + 1
}

// Where the text starts, in characters of the item's text form: behind n units, at the item's end, where there is none.
pub fn text_start(kind: Kind, h: usize, n: usize, cs: [u8; 12]) -> TextOffset
    ensures { h ≤ 2 → n ≤ 1048576 → result.0 ≡ text_start kind h n cs }
{
    let end = 4 * n.min(1048576);
    match kind {
        Kind::Fixed(_) => TextOffset(end),
        Kind::Variable {
            letter,
            lead,
            count: _,
        } => {
            if letter == 0 {
                let i = 4 * h.min(2);
                return TextOffset(i + fill_of(lead, cs[i]));
            }
            TextOffset(end)
        }
        Kind::Group { letter: _ } => TextOffset(end),
        Kind::Genus => TextOffset(end),
        Kind::Indexed(_) => TextOffset(end),
    }
}

// Its characters: what is behind its start.
pub fn text_size(n: usize, start: TextOffset) -> usize
    ensures { n ≤ 1048576 → result ≡ 4 * n - start.0 }
{
    (4 * n.min(1048576)).saturating_sub(start.0)
}
