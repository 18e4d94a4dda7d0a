// The verdict on the item at a unit of a stream, of either form, whatever it is. The general way: it needs no table but those of the
// registry and the alphabet, and every other way to a verdict is proved against the same definition. Positions count units, and places
// within the judging sextets.
#![tactic(auto)]

ghost use Rattle.std.specs.Prelude.{◌≡◌, ◌<◌};
ghost use Rattle.format.specs.Units.{domain};
ghost use Rattle.format.specs.Report.{placed};
ghost use Rattle.laws.specs.Levels.{level};
ghost use Rattle.report_found.specs.Finds.{Inside};
ghost use Rattle.report_item.specs.Items.{Whole, Judges};

use format::{Form, Framed, Verdict};
use judging::MAX_DEPTH;
use report_units::LONGEST;

// ---- the items of a group

// The next item judged whole: as it is framed if it is accepted, else its refusal. A group says by which table its items are framed.
#[cycle(level_whole)]
fn whole(
    form: Form,
    s: &[u8],
    indexed: bool,
    levels: usize,
    first: bool,
    at: usize,
    stop: usize,
) -> Framed
    requires { Inside (domain form) s.now at stop × (at < stop) }
    ensures { Whole ((domain form).sextets s.now) indexed levels first at stop result }
{
    let item = report_found::found(form, s, indexed, levels, first, at, stop);
    match item {
        Framed::Unframed {
            number: _,
            place: _,
        } => item,
        Framed::Item { kind, head, size } => {
            if report_next::is_entered(kind) {
                let marks = report_next::is_ruled(kind);
                let inner = report_next::holds_indexed(kind);
                let v = level(form, s, inner, levels - 1, marks, at + head, at + size);
                judging::told(item, v)
            } else {
                item
            }
        }
    }
}

// The verdict on the items of a group from a unit to its end, by the table that is asked, where so many more groups may be entered.
#[cycle(level_whole)]
fn level(
    form: Form,
    s: &[u8],
    indexed: bool,
    levels: usize,
    first: bool,
    at: usize,
    stop: usize,
) -> Verdict
    requires { Inside (domain form) s.now at stop }
    ensures { result ≡ level ((domain form).sextets s.now) indexed levels first at stop }
{
    let mut i = at;
    let mut ruled = first;
    while i < stop {
        match whole(form, s, indexed, levels, ruled, i, stop) {
            Framed::Unframed { number, place } => {
                return Verdict::Refused { number, place };
            }
            Framed::Item {
                kind: _,
                head: _,
                size,
            } => {
                i = i + size;
                ruled = false;
            }
        }
    }
    Verdict::Accepted
}

// ---- whole items

// A place in sextets as one in elements.
fn placed(form: Form, v: Verdict) -> Verdict
    ensures { result ≡ placed (domain form).unit v }
{
    match v {
        Verdict::Accepted => v,
        Verdict::Refused { number, place } => Verdict::Refused {
            number,
            place: place / 4 * report_units::unit(form) + place % 4,
        },
    }
}

// The verdict on an item that is framed at a unit and has so many units, with its place in the stream. What is no such item is never
// accepted.
pub fn verdict(form: Form, s: &[u8], at: usize, size: usize) -> Verdict
    ensures { Judges (domain form) s.now at size result }
{
    let all = report_units::units(form, s.len());
    if LONGEST < s.len() {
        return Verdict::Refused {
            number: 1,
            place: 0,
        };
    }
    if all < at {
        return Verdict::Refused {
            number: 4,
            place: 0,
        };
    }
    if all - at < size {
        return Verdict::Refused {
            number: 4,
            place: 0,
        };
    }
    placed(form, level(form, s, false, MAX_DEPTH, false, at, at + size))
}
