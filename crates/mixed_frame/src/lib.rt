// What stands at the start of a mixed stream's part, framed as at top level: by its first byte as a text item, a binary one, a JSON one, or
// not at all. Sizes are in bytes.
#![tactic(auto)]

ghost use Rattle.std.specs.Prelude.{◌≡◌};
ghost use Rattle.format.specs.Units.{domain};
ghost use Rattle.format.specs.Framing.{scale};
ghost use Rattle.format.specs.Report.{frame_in};
ghost use Rattle.mixed.specs.Mixed.{start_of, start_at, form_byte, frame_mixed};
ghost use Rattle.mixed_frame.specs.Scales.{Scales};

use format::{Form, Framed};
use mixed::Start;

// ---- first bytes

// What a byte starts.
fn starts(b: u8) -> Start
    ensures { result ≡ start_of b }
{
    if b == 45 {
        return Start::Cesr(Form::Text);
    }
    if b == 123 {
        return Start::Json;
    }
    if b < 248 {
        return Start::Other;
    }
    if b <= 251 {
        return Start::Cesr(Form::Binary);
    }
    Start::Other
}

// What stands at an offset, by its first byte; at the end nothing does.
pub fn start(s: &[u8], at: usize) -> Start
    ensures { result ≡ start_at s.now at }
{
    if at < s.len() {
        return starts(s[at]);
    }
    Start::Other
}

// The last byte of an item's row.
pub fn form_byte(start: Start) -> u8
    ensures { result ≡ form_byte start }
{
    match start {
        Start::Cesr(form) => match form {
            Form::Text => 0,
            Form::Binary => 1,
        },
        Start::Json => 2,
        Start::Other => 3,
    }
}

// ---- items

// Header and size in elements, u to the unit.
fn scaled(u: usize, f: Framed) -> Framed
    requires { Scales u f }
    ensures { result ≡ scale u f }
{
    match f {
        Framed::Item { kind, head, size } => Framed::Item {
            kind,
            head: head * u,
            size: size * u,
        },
        Framed::Unframed {
            number: _,
            place: _,
        } => f,
    }
}

// A CESR item of a form.
fn frame_cesr(form: Form, part: &[u8]) -> Framed
    ensures { result ≡ frame_in (domain form) part.now }
{
    let framed = report_frame::framed(form, part, 0);
    scaled(report_units::unit(form), framed)
}

// What stands at the start of a part.
pub fn framed(part: &[u8]) -> Framed
    ensures { result ≡ frame_mixed part.now }
{
    match start(part, 0) {
        Start::Cesr(form) => frame_cesr(form, part),
        Start::Json => mixed_json::frame_json(part),
        Start::Other => Framed::Unframed {
            number: 17,
            place: 0,
        },
    }
}
