// Streams in pieces (02 f) over a state that C lends: a number, 0 for taken in, and the lengths written. Nothing is decided here.
#![tactic(auto)]

ghost use Rattle.std.specs.Prelude.{◌≡◌, length};
ghost use Rattle.format.specs.Units.{domain, text, binary};
ghost use Rattle.pieces.specs.Calls.{feed, items_left, refusals_left, finish, remainder_left};
ghost use Rattle.exports_pieces_state.specs.Numbers.{pieces_in};
ghost use Rattle.exports_pieces.specs.Answers.{given_number, given_lengths, fed_numbers, closing_number, closing_length, ended_numbers, Kept, Stayed};

use exports_pieces_state::PIECES;
use format::Form;
use pieces::{Closed, Fed};

// ---- what a call answered

// Both lengths and the state's numbers, which are read as the state behind the call; at a refusal they stay, whatever they are.
fn fed(r: Fed, state: &mut [usize; PIECES], given: &mut [usize; 2]) -> u8
    ensures value { result ≡ given_number r.given }
    ensures given_after { given.new ≡ given_lengths r.given }
    ensures state_after { state.new ≡ fed_numbers r.given r.next state.old }
    ensures state_after_2 { Kept r.given r.next (pieces_in state.old) → pieces_in state.new ≡ r.next }
{
    let next = r.next;
    let g = r.given;
    match g {
        Ok(rows) => {
            *state = exports_pieces_state::numbers_of(next);
            *given = [rows.items, rows.refusals];
            0
        }
        Err(refusal) => {
            *given = [0, 0];
            refusal.number
        }
    }
}

fn ended(r: Closed, state: &mut [usize; PIECES], answer: &mut usize) -> u8
    ensures value { result ≡ closing_number r.closing }
    ensures answer_after { answer.new ≡ closing_length r.closing }
    ensures state_after { state.new ≡ ended_numbers r.closing r.next state.old }
    ensures state_after_2 { Stayed r.closing r.next (pieces_in state.old) → pieces_in state.new ≡ r.next }
{
    let next = r.next;
    let g = r.closing;
    match g {
        Ok(n) => {
            *state = exports_pieces_state::numbers_of(next);
            *answer = n;
            0
        }
        Err(refusal) => {
            *answer = 0;
            refusal.number
        }
    }
}

// ---- the calls

// The rows go to items and refusals, their lengths to given.
fn feed(
    form: Form,
    state: &mut [usize; PIECES],
    piece: &[u8],
    items: &mut [u8],
    refusals: &mut [u8],
    given: &mut [usize; 2],
) -> u8
    ensures value { result ≡ given_number (feed (domain form) (pieces_in state.old) piece.now (length items.old) (length refusals.old)).given }
    ensures given_after { given.new ≡ given_lengths (feed (domain form) (pieces_in state.old) piece.now (length items.old) (length refusals.old)).given }
    ensures state_after { state.new ≡ fed_numbers (feed (domain form) (pieces_in state.old) piece.now (length items.old) (length refusals.old)).given (feed (domain form) (pieces_in state.old) piece.now (length items.old) (length refusals.old)).next state.old }
    ensures state_after_2 { pieces_in state.new ≡ (feed (domain form) (pieces_in state.old) piece.now (length items.old) (length refusals.old)).next }
    ensures after { items.new ≡ items_left (feed (domain form) (pieces_in state.old) piece.now (length items.old) (length refusals.old)).given (domain form) (pieces_in state.old) piece.now items.old }
    ensures refusals_after { refusals.new ≡ refusals_left (feed (domain form) (pieces_in state.old) piece.now (length items.old) (length refusals.old)).given (domain form) (pieces_in state.old) piece.now refusals.old }
{
    let st = exports_pieces_state::pieces_of(*state);
    let r = pieces_feed::feed(form, st, piece, items, refusals);
    fed(r, state, given)
}

// A piece of a text.
pub fn feed_text(
    state: &mut [usize; PIECES],
    piece: &[u8],
    items: &mut [u8],
    refusals: &mut [u8],
    given: &mut [usize; 2],
) -> u8
    ensures value { result ≡ given_number (feed text (pieces_in state.old) piece.now (length items.old) (length refusals.old)).given }
    ensures given_after { given.new ≡ given_lengths (feed text (pieces_in state.old) piece.now (length items.old) (length refusals.old)).given }
    ensures state_after { state.new ≡ fed_numbers (feed text (pieces_in state.old) piece.now (length items.old) (length refusals.old)).given (feed text (pieces_in state.old) piece.now (length items.old) (length refusals.old)).next state.old }
    ensures state_after_2 { pieces_in state.new ≡ (feed text (pieces_in state.old) piece.now (length items.old) (length refusals.old)).next }
    ensures after { items.new ≡ items_left (feed text (pieces_in state.old) piece.now (length items.old) (length refusals.old)).given text (pieces_in state.old) piece.now items.old }
    ensures refusals_after { refusals.new ≡ refusals_left (feed text (pieces_in state.old) piece.now (length items.old) (length refusals.old)).given text (pieces_in state.old) piece.now refusals.old }
{
    feed(Form::Text, state, piece, items, refusals, given)
}

// The same of a binary.
pub fn feed_binary(
    state: &mut [usize; PIECES],
    piece: &[u8],
    items: &mut [u8],
    refusals: &mut [u8],
    given: &mut [usize; 2],
) -> u8
    ensures value { result ≡ given_number (feed binary (pieces_in state.old) piece.now (length items.old) (length refusals.old)).given }
    ensures given_after { given.new ≡ given_lengths (feed binary (pieces_in state.old) piece.now (length items.old) (length refusals.old)).given }
    ensures state_after { state.new ≡ fed_numbers (feed binary (pieces_in state.old) piece.now (length items.old) (length refusals.old)).given (feed binary (pieces_in state.old) piece.now (length items.old) (length refusals.old)).next state.old }
    ensures state_after_2 { pieces_in state.new ≡ (feed binary (pieces_in state.old) piece.now (length items.old) (length refusals.old)).next }
    ensures after { items.new ≡ items_left (feed binary (pieces_in state.old) piece.now (length items.old) (length refusals.old)).given binary (pieces_in state.old) piece.now items.old }
    ensures refusals_after { refusals.new ≡ refusals_left (feed binary (pieces_in state.old) piece.now (length items.old) (length refusals.old)).given binary (pieces_in state.old) piece.now refusals.old }
{
    feed(Form::Binary, state, piece, items, refusals, given)
}

// The remainder's row goes to out, its length to answer.
fn end(form: Form, state: &mut [usize; PIECES], out: &mut [u8], answer: &mut usize) -> u8
    ensures value { result ≡ closing_number (finish (domain form) (pieces_in state.old) (length out.old)).closing }
    ensures answer_after { answer.new ≡ closing_length (finish (domain form) (pieces_in state.old) (length out.old)).closing }
    ensures state_after { state.new ≡ ended_numbers (finish (domain form) (pieces_in state.old) (length out.old)).closing (finish (domain form) (pieces_in state.old) (length out.old)).next state.old }
    ensures state_after_2 { pieces_in state.new ≡ (finish (domain form) (pieces_in state.old) (length out.old)).next }
    ensures out_after { out.new ≡ remainder_left (finish (domain form) (pieces_in state.old) (length out.old)).closing (domain form) (pieces_in state.old) out.old }
{
    let st = exports_pieces_state::pieces_of(*state);
    let r = pieces_end::end(form, st, out);
    ended(r, state, answer)
}

// The end of a text.
pub fn end_text(state: &mut [usize; PIECES], out: &mut [u8], answer: &mut usize) -> u8
    ensures value { result ≡ closing_number (finish text (pieces_in state.old) (length out.old)).closing }
    ensures answer_after { answer.new ≡ closing_length (finish text (pieces_in state.old) (length out.old)).closing }
    ensures state_after { state.new ≡ ended_numbers (finish text (pieces_in state.old) (length out.old)).closing (finish text (pieces_in state.old) (length out.old)).next state.old }
    ensures state_after_2 { pieces_in state.new ≡ (finish text (pieces_in state.old) (length out.old)).next }
    ensures out_after { out.new ≡ remainder_left (finish text (pieces_in state.old) (length out.old)).closing text (pieces_in state.old) out.old }
{
    end(Form::Text, state, out, answer)
}

// The same of a binary.
pub fn end_binary(state: &mut [usize; PIECES], out: &mut [u8], answer: &mut usize) -> u8
    ensures value { result ≡ closing_number (finish binary (pieces_in state.old) (length out.old)).closing }
    ensures answer_after { answer.new ≡ closing_length (finish binary (pieces_in state.old) (length out.old)).closing }
    ensures state_after { state.new ≡ ended_numbers (finish binary (pieces_in state.old) (length out.old)).closing (finish binary (pieces_in state.old) (length out.old)).next state.old }
    ensures state_after_2 { pieces_in state.new ≡ (finish binary (pieces_in state.old) (length out.old)).next }
    ensures out_after { out.new ≡ remainder_left (finish binary (pieces_in state.old) (length out.old)).closing binary (pieces_in state.old) out.old }
{
    end(Form::Binary, state, out, answer)
}
