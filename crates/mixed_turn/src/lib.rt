// A turn of the mixed report's loop: what stands at a byte is framed and judged, and its rows are stored. It does so wherever the places that
// it is given are within the stream, the tables are right, characters are known up to `to` and the buffer is filled up to there.
#![tactic(auto)]

ghost use Rattle.mixed_here.specs.declared.Standing.TheVariants as Standing;
ghost use Rattle.mixed_here.specs.Here.{Stands};
ghost use Rattle.mixed_turn.specs.Turns.{Placed, Filled, Turns, Places};

use filling::Position;
use format::Verdict;
use mixed_here::Standing;
use runs_tables::Tables;

// What a turn stored: the rows of an item of so many bytes and its refusal, if it is refused; or nothing, for this reason.
#[derive(Clone, Copy)]
pub enum Turn {
    Stored { bytes: usize, refused: usize },
    Rest { number: u8 },
}

// Whether a report has such places in a buffer of so many bytes: a byte of the stream, so many items stored, so many of them
// refused.
fn is_place(s: &[u8], room: usize, here: Position) -> bool
    ensures { Places s.now room here.items here.at here.stored here.refused result }
{
    if room / 19 < here.items {
        return false;
    }
    if here.items < here.stored {
        return false;
    }
    if here.items < here.refused {
        return false;
    }
    here.at <= s.len()
}

// The rows of an item of so many bytes that has this verdict and form.
fn put_item(s: &[u8], out: &mut [u8], here: Position, size: usize, v: Verdict, form: u8) -> Turn
    requires { Placed s.now here.items here.at here.stored here.refused }
    ensures { Stands s.now here.at (Standing.Item size v form) → Filled s.now here.items here.at here.stored here.refused out.old result out.new }
{
    let row = 4 + 10 * here.stored;
    let to = 8 + 10 * here.items + 9 * here.refused;
    let refused = mixed_rows::put_item(out, row, to, here.stored, here.at, size, v, form);
    Turn::Stored {
        bytes: size,
        refused,
    }
}

// What stands at a byte.
fn put_here(s: &[u8], out: &mut [u8], here: Position, standing: Standing) -> Turn
    requires { Placed s.now here.items here.at here.stored here.refused }
    ensures { Stands s.now here.at standing → Filled s.now here.items here.at here.stored here.refused out.old result out.new }
{
    match standing {
        Standing::Rest { number } => Turn::Rest { number },
        Standing::Item {
            size,
            verdict,
            form,
        } => put_item(s, out, here, size, verdict, form),
    }
}

// The same of any places; where no report has them, nothing is stored, and no refusal's number is 0.
pub fn put_turn(tables: &Tables, s: &[u8], out: &mut [u8], to: usize, here: Position) -> Turn
    ensures { Turns tables.now s.now here.items to here.at here.stored here.refused out.old result out.new }
{
    if is_place(s, out.len(), here) {
        let standing = mixed_here::judged(tables, s, here.at, to);
        return put_here(s, out, here, standing);
    }
    Turn::Rest { number: 0 }
}
