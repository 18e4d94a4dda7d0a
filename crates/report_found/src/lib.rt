// The next item of a group, from a unit of a stream on, of either form: framed and judged by its own checks (report_next), with a
// refusal's place counted from the stream's start. Positions count units, and places sextets.
#![tactic(auto)]

ghost use Rattle.std.specs.Prelude.{◌≡◌, ◌*◌, ◌<◌};
ghost use Rattle.report_found.specs.Finds.{Here, moved, Near, Finds};

use format::{Form, Framed};
use report_units::LONGEST;

// A refusal's place counted on.
fn moved(f: Framed, by: usize) -> Framed
    requires { Near by f }
    ensures { result ≡ moved by f }
{
    match f {
        Framed::Item {
            kind: _,
            head: _,
            size: _,
        } => f,
        Framed::Unframed { number, place } => Framed::Unframed {
            number,
            place: by + place,
        },
    }
}

// The next item of a group from a unit on, framed by the table that is asked and judged by its own checks, with a refusal's place in the
// stream.
fn next(
    form: Form,
    s: &[u8],
    indexed: bool,
    levels: usize,
    first: bool,
    at: usize,
    stop: usize,
) -> Framed
    requires { Here form s.now at stop }
    ensures { Finds form s.now indexed levels first at stop result }
{
    match form {
        Form::Text => {
            let from = 4 * at;
            let to = 4 * stop;
            moved(
                report_next::next_text(&s[from..to], indexed, first, levels),
                4 * at,
            )
        }
        Form::Binary => {
            let from = 3 * at;
            let to = 3 * stop;
            moved(
                report_next::next_binary(&s[from..to], indexed, first, levels),
                4 * at,
            )
        }
    }
}

// The same of any units: what is past the end, or of a stream that is too long, is not framed.
pub fn found(
    form: Form,
    s: &[u8],
    indexed: bool,
    levels: usize,
    first: bool,
    at: usize,
    stop: usize,
) -> Framed
    ensures { Finds form s.now indexed levels first at stop result }
{
    if LONGEST < s.len() {
        return Framed::Unframed {
            number: 1,
            place: 0,
        };
    }
    if report_units::units(form, s.len()) < stop {
        return Framed::Unframed {
            number: 4,
            place: 0,
        };
    }
    if stop <= at {
        return Framed::Unframed {
            number: 4,
            place: 0,
        };
    }
    next(form, s, indexed, levels, first, at, stop)
}
