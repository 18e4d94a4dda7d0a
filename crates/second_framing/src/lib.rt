// The second judge's framing (02 m), to be read by eye: the item that a text begins with, in the papers' order and by their names. It shares with
// the first engine the tables of alphabet and registry with their look-ups; no more. Places count characters of a text `t`; `&` asks both sides.
#![tactic(auto)]

ghost use Rattle.std.specs.Prelude.{◌≡◌};
ghost use Rattle.format.specs.declared.Framed.TheVariants.{Unframed};
ghost use Rattle.format.specs.Units.{text_sextets};
ghost use Rattle.format.specs.Framing.{frame_next};

use format::{Framed, Kind, Verdict};
use registry_extent::extent;
use registry_reading::header_units;
use second_characters::{at, is_ours, strangers};

fn unframed(number: u8) -> Framed
    ensures { result ≡ Unframed number 0 }
{
    Framed::Unframed { number, place: 0 }
}

// The item that a text begins with, by the table that is asked: 4 (first unit), 5 or 19 (its first bad character), 6, 4 (second unit),
// 5 or 19, 4 (extent); then 7, where it is asked.
pub fn frame(indexed: bool, asked: bool, t: &[u8]) -> Framed
    ensures { result ≡ frame_next indexed asked (text_sextets t.now) }
{
    let units = t.len() / 4;
    if units < 1 {
        return unframed(4);
    }
    if let Verdict::Refused { number, place } = strangers(t, 0, 4) {
        return Framed::Unframed { number, place };
    }
    let opening = registry::opening_by(indexed, [at(t, 0), at(t, 1), at(t, 2), at(t, 3)]);
    let head = header_units(opening);
    if head == 0 {
        return unframed(6);
    }
    if units < head {
        return unframed(4);
    }
    if let Verdict::Refused { number, place } = strangers(t, 4, 4 * head) {
        return Framed::Unframed { number, place };
    }
    let second = [at(t, 4), at(t, 5), at(t, 6), at(t, 7)];
    let size = extent(opening, second);
    if units < size {
        return unframed(4);
    }
    let kind = registry_reading::kind(opening, second);
    if let Kind::Genus = kind {
        if asked & !is_ours(t) {
            return unframed(7);
        }
    }
    Framed::Item { kind, head, size }
}
