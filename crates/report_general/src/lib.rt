// A turn of a report's loop by the general way, of either form: what stands at a unit is framed and judged, and its rows are stored. It
// does so wherever the places that it is given are within the stream and the buffer is filled up to there. Positions count units, u
// elements each.
#![tactic(auto)]

ghost use Rattle.std.specs.Prelude.{◌≡◌, ℕ, ◌-◌, ◌*◌, ◌/◌, ◌≤◌, length, drop};
ghost use Rattle.format.specs.declared.Kind.{Kind};
ghost use Rattle.format.specs.Units.{domain};
ghost use Rattle.format.specs.Framing.{frame_ruled};
ghost use Rattle.report_general.specs.Turns.{Placed, Turned, Places};

use filling::Position;
use format::{Form, Framed};

// What a turn stored: rows of so many items, of which so many are refused, up to so many units further on; or nothing, for this reason.
#[derive(Clone, Copy)]
pub enum Turn {
    Stored {
        units: usize,
        items: usize,
        refused: usize,
    },
    Rest {
        number: u8,
    },
}

// Whether a report has such places in a buffer of so many bytes: a unit of the stream, so many items stored, so many of them
// refused.
pub fn is_place(form: Form, s: &[u8], room: usize, here: Position) -> bool
    ensures { Places form s.now room here.items here.at here.stored here.refused result }
{
    if room / 18 < here.items {
        return false;
    }
    if here.items < here.stored {
        return false;
    }
    if here.items < here.refused {
        return false;
    }
    if report_units::units(form, s.len()) < here.at {
        return false;
    }
    true
}

// A framed item of so many units by the general way.
fn put_framed(form: Form, u: usize, s: &[u8], out: &mut [u8], here: Position, size: usize) -> Turn
    requires { Placed form u s.now here.items here.at here.stored here.refused × (size ≤ length s.now / (domain form).unit - here.at) }
    ensures { (t : Kind) (h : ℕ) → frame_ruled ((domain form).sextets (drop ((domain form).unit * here.at) s.now)) ≡ Framed.Item t h size → Turned form u s.now here.items here.at here.stored here.refused out.old result out.new }
{
    let v = report_item::verdict(form, s, here.at, size);
    let row = 4 + 9 * here.stored;
    let to = 8 + 9 * here.items + 9 * here.refused;
    let refused = report_rows::put_item(out, row, to, here.stored, u * here.at, u * size, v);
    Turn::Stored {
        units: size,
        items: 1,
        refused,
    }
}

// What stands at a unit by the general way.
fn put_judged(form: Form, u: usize, s: &[u8], out: &mut [u8], here: Position) -> Turn
    requires { Placed form u s.now here.items here.at here.stored here.refused }
    ensures { Turned form u s.now here.items here.at here.stored here.refused out.old result out.new }
{
    match report_frame::framed(form, s, here.at) {
        Framed::Unframed { number, place: _ } => Turn::Rest { number },
        Framed::Item {
            kind: _,
            head: _,
            size,
        } => put_framed(form, u, s, out, here, size),
    }
}

// The same of any places; where no report has them, nothing is stored, and no refusal's number is 0.
pub fn put_general(form: Form, s: &[u8], out: &mut [u8], here: Position) -> Turn
    ensures { Turned form (domain form).unit s.now here.items here.at here.stored here.refused out.old result out.new }
{
    if is_place(form, s, out.len(), here) {
        return put_judged(form, report_units::unit(form), s, out, here);
    }
    Turn::Rest { number: 0 }
}
