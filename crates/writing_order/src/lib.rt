// Why nothing is written: the one function that knows the refusals before 3 and their order.
#![tactic(auto)]

ghost use Rattle.std.specs.Prelude.{◌≡◌};
ghost use Rattle.writing_code.specs.Names.{as_named};
ghost use Rattle.writing_refusal.specs.Refusals.{chars_refusal, refusal_of};

use format::Refusal;
use writing_code::Named;

// Of a text its own characters, of every other code the tag's.
fn chars_refusal(n: Named, tag: [u8; 11], tags: usize, raw: &[u8]) -> Option<Refusal<usize>>
    ensures { result ≡ chars_refusal (as_named n) tag tags raw.now }
{
    match n {
        Named::Unknown => writing_tags::tag_refusal(tag, tags),
        Named::Row(_) => writing_tags::tag_refusal(tag, tags),
        Named::Variable { letter: _, head: _ } => writing_tags::tag_refusal(tag, tags),
        Named::Textual { head: _ } => writing_chars::text_refusal(raw),
    }
}

// In this order: 6, 12, 18, 5 or 19, 16.
pub fn refusal_of(n: Named, tag: [u8; 11], tags: usize, raw: &[u8]) -> Option<Refusal<usize>>
    ensures { result ≡ refusal_of (as_named n) tag tags raw.now }
{
    if !writing_code::is_named(n) {
        return Some(Refusal {
            number: 6,
            place: 0,
        });
    }
    if !writing_code::is_fit(n, tags, raw.len()) {
        return Some(Refusal {
            number: 12,
            place: 0,
        });
    }
    if !writing_short::is_short(n, raw.len()) {
        return Some(Refusal {
            number: 18,
            place: 0,
        });
    }
    chars_refusal(n, tag, tags, raw)
}
