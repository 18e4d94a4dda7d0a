// The verdict on an item of a mixed stream, judged on its own bytes by the reports' general way, with its place in the stream. What is no such
// item is never accepted.
#![tactic(auto)]

ghost use Rattle.std.specs.Prelude.{◌≡◌, ℕ, ◌≤◌};
ghost use Rattle.format.specs.Judging.{shift};
ghost use Rattle.mixed_item.specs.Items.{Own, Judges, farthest};

use format::Verdict;
use mixed::Start;
use report_units::LONGEST;

// No item of a stream that is not too long has a place of refusal behind this one.
const FARTHEST: usize = 8388608;

// An item's own bytes.
fn own(item: &[u8]) -> Verdict
    ensures { Own item.now result }
{
    match mixed_frame::start(item, 0) {
        Start::Cesr(form) => {
            report_item::verdict(form, item, 0, report_units::units(form, item.len()))
        }
        Start::Json => Verdict::Accepted,
        Start::Other => Verdict::Accepted,
    }
}

// A place counted on.
fn moved(v: Verdict, by: usize) -> Verdict
    requires { by ≤ 4194304 }
    ensures { ((m p : ℕ) → v ≡ Verdict.Refused m p → p ≤ farthest) → result ≡ shift by v }
{
    match v {
        Verdict::Accepted => v,
        Verdict::Refused { number, place } => {
            if FARTHEST < place {
                return v;
            }
            Verdict::Refused {
                number,
                place: by + place,
            }
        }
    }
}

// The item of so many bytes at an offset.
pub fn verdict(s: &[u8], at: usize, size: usize) -> Verdict
    ensures { Judges s.now at size result }
{
    if LONGEST < s.len() {
        return Verdict::Refused {
            number: 1,
            place: 0,
        };
    }
    if s.len() < at {
        return Verdict::Refused {
            number: 4,
            place: 0,
        };
    }
    if s.len() - at < size {
        return Verdict::Refused {
            number: 4,
            place: 0,
        };
    }
    let end = at + size;
    moved(own(&s[at..end]), at)
}
