// The item at a unit of a stream, of either form, framed as at top level, by the general way. Positions count units.
#![tactic(auto)]

ghost use Rattle.std.specs.Prelude.{◌≡◌, ◌*◌, drop};
ghost use Rattle.format.specs.Units.{domain};
ghost use Rattle.format.specs.Framing.{frame_ruled};

use format::{Form, Framed};

// The item at a unit, framed as at top level; past the end nothing is.
pub fn framed(form: Form, s: &[u8], at: usize) -> Framed
    ensures { result ≡ frame_ruled ((domain form).sextets (drop ((domain form).unit * at) s.now)) }
{
    if report_units::units(form, s.len()) < at {
        return Framed::Unframed {
            number: 4,
            place: 0,
        };
    }
    match form {
        Form::Text => {
            let from = 4 * at;
            framing::frame_ruled_text(&s[from..])
        }
        Form::Binary => {
            let from = 3 * at;
            framing::frame_ruled_binary(&s[from..])
        }
    }
}
