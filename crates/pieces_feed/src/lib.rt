// A piece (02 f): 13, 1, 3, else it is taken in. Refused, the state and both buffers stay as they were. Assumes nothing of the state.
#![tactic(auto)]

ghost use Rattle.std.specs.Prelude.{◌≡◌, ◌+◌, ◌*◌, ◌≤◌, leb, length};
ghost use Rattle.std.proofs.Math.Bool as Bool;
ghost use Rattle.base.specs.Pick.{pick};
ghost use Rattle.format.specs.Units.{domain};
ghost use Rattle.pieces.specs.Feeding.{items_out, refusals_out, taken};
ghost use Rattle.pieces.specs.Calls.{feed, items_left, refusals_left};
ghost use Rattle.pieces_feed.specs.Feeds.{kept, Enters, Room, Gives};

use format::{Form, Refusal};
use pieces::{Fed, Pieces, Rows};

// Refused: nothing is taken in.
fn kept(st: Pieces, number: u8) -> Fed
    ensures { result ≡ kept st number }
{
    Fed {
        next: st,
        given: Err(Refusal { number, place: 0 }),
    }
}

// Not 1: with the piece the stream is within the limit.
fn is_within(form: Form, st: Pieces, piece: &[u8]) -> bool
    requires { st.count ≤ 4 }
    ensures { (result ≡ leb (taken (domain form) st + length piece.now) (domain form).limit) × (st.count ≤ 4) × (length st.held ≡ 4) }
{
    let p = st.progress;
    pieces_asked::taken_fits(form, p.read, st.count + piece.len())
}

// ---- 3

// So many rows of nine bytes fit both.
fn many_fit(n: usize, m: usize, room: usize, more: usize) -> bool
    ensures { result ≡ pick (leb (9 * n) room) (leb (9 * m) more) Bool.false }
{
    if room / 9 < n {
        return false;
    }
    m <= more / 9
}

// The rows that the piece completes fit. Where there is room for a row a unit they are not counted.
fn rows_fit(form: Form, st: Pieces, piece: &[u8], room: usize, more: usize) -> bool
    requires { Enters form st piece.now }
    ensures { result ≡ pick (leb (9 * length (items_out (domain form) st piece.now)) room) (leb (9 * length (refusals_out (domain form) st piece.now)) more) Bool.false }
{
    let n = report_units::units(form, st.count + piece.len());
    if many_fit(n, n, room, more) {
        return true;
    }
    let mut none: [u8; 1] = [0; 1];
    let mut nothing: [u8; 1] = [0; 1];
    let a = pieces_taken::take_in(form, st, piece, &mut none, &mut nothing);
    many_fit(a.items, a.refusals, room, more)
}

// ---- the piece

// Taken in, where its rows fit.
fn enter(form: Form, st: Pieces, piece: &[u8], items: &mut [u8], refusals: &mut [u8]) -> Fed
    requires { Enters form st piece.now × Room form st piece.now items.old refusals.old }
    ensures { Gives (domain form) st piece.now items.old items.new refusals.old refusals.new result }
{
    let a = pieces_taken::take_in(form, st, piece, items, refusals);
    let next = a.next;
    let n = a.items;
    let m = a.refusals;
    Fed {
        next,
        given: Ok(Rows {
            items: 9 * n,
            refusals: 9 * m,
        }),
    }
}

pub fn feed(form: Form, st: Pieces, piece: &[u8], items: &mut [u8], refusals: &mut [u8]) -> Fed
    ensures value { result ≡ feed (domain form) st piece.now (length items.old) (length refusals.old) }
    ensures after { items.new ≡ items_left result.given (domain form) st piece.now items.old }
    ensures refusals_after { refusals.new ≡ refusals_left result.given (domain form) st piece.now refusals.old }
{
    if !pieces_asked::is_fit(form, st) {
        return kept(st, 13);
    }
    if !is_within(form, st, piece) {
        return kept(st, 1);
    }
    if !rows_fit(form, st, piece, items.len(), refusals.len()) {
        return kept(st, 3);
    }
    enter(form, st, piece, items, refusals)
}
