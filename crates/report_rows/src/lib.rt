// The bytes of a report, stored at places of a lent buffer: numbers, rows of items, refusals, the remainder. What does not fit is not
// stored. Where each stands is the caller's, so that rows may have any width: the law in `filling` is over it.
#![tactic(auto)]

ghost use Rattle.std.specs.Prelude.{◌≡◌, [], ◌∷◌, ◌++◌, ◌+◌, ◌≤◌, ◌<◌, leb, length};
ghost use Rattle.std.proofs.lemmas.List.Edits.{sets};
ghost use Rattle.format.specs.Report.{be4, refusal_bytes, concat, refusal, verdict_byte};
ghost use Rattle.report_rows.specs.Stores.{put};

use format::Verdict;

fn has_room(len: usize, at: usize, n: usize) -> bool
    ensures { result ≡ leb (at + n) len }
{
    if len < n {
        return false;
    }
    at <= len - n
}

// ---- numbers

// A number in four bytes, the highest first.
fn store4(out: &mut [u8], at: usize, v: usize)
    requires { at + 4 ≤ length out.old }
    ensures { out.new ≡ sets out.old at (be4 v) }
{
    out[at..at + 4].copy_from_slice(&v.to_be_bytes()[4..]);
}

pub fn put_number(out: &mut [u8], at: usize, v: usize)
    ensures { out.new ≡ put out.old at (be4 v) }
{
    if has_room(out.len(), at, 4) {
        store4(out, at, v);
    }
}

// ---- rows that fit

// A number, and a refusal's number behind it, or 0 where an item is accepted.
fn store_told(out: &mut [u8], at: usize, v: usize, number: u8)
    requires { at + 5 ≤ length out.old }
    ensures { out.new ≡ sets out.old at (be4 v ++ (number ∷ [])) }
{
    store4(out, at, v);
    out[at + 4] = number;
}

fn store_row(out: &mut [u8], at: usize, offset: usize, size: usize, number: u8)
    requires { at + 9 ≤ length out.old }
    ensures { out.new ≡ sets out.old at (be4 offset ++ (be4 size ++ (number ∷ []))) }
{
    store4(out, at, offset);
    // A test keeps the stores apart, so that the compiler joins the bytes of the offset to one.
    if at + 8 < out.len() {
        store_told(out, at + 4, size, number);
    }
}

fn store_refusal(out: &mut [u8], at: usize, index: usize, number: u8, place: usize)
    requires { at + 9 ≤ length out.old }
    ensures { out.new ≡ sets out.old at (be4 index ++ (number ∷ be4 place)) }
{
    store4(out, at, index);
    out[at + 4] = number;
    store4(out, at + 5, place);
}

// ---- one row

pub fn put_row(out: &mut [u8], at: usize, offset: usize, size: usize, number: u8)
    ensures { out.new ≡ put out.old at (be4 offset ++ (be4 size ++ (number ∷ []))) }
{
    if has_room(out.len(), at, 9) {
        store_row(out, at, offset, size, number);
    }
}

fn put_refusal(out: &mut [u8], at: usize, index: usize, number: u8, place: usize)
    ensures { out.new ≡ put out.old at (be4 index ++ (number ∷ be4 place)) }
{
    if has_room(out.len(), at, 9) {
        store_refusal(out, at, index, number, place);
    }
}

// A number and a refusal's number behind it: the remainder, or the end of a row.
pub fn put_told(out: &mut [u8], at: usize, offset: usize, number: u8)
    ensures { out.new ≡ put out.old at (be4 offset ++ (number ∷ [])) }
{
    if has_room(out.len(), at, 5) {
        store_told(out, at, offset, number);
    }
}

// ---- an item

// An item's row, and where it is refused, its refusal's row at a place of its own: how many refusals that were.
pub fn put_item(
    out: &mut [u8],
    at: usize,
    to: usize,
    index: usize,
    offset: usize,
    size: usize,
    v: Verdict,
) -> usize
    ensures { (result ≡ length (refusal index v)) × (out.new ≡ put (put out.old at (be4 offset ++ (be4 size ++ (verdict_byte v ∷ [])))) to (concat refusal_bytes (refusal index v))) }
{
    match v {
        Verdict::Accepted => {
            put_row(out, at, offset, size, 0);
            0
        }
        Verdict::Refused { number, place } => {
            put_row(out, at, offset, size, number);
            put_refusal(out, to, index, number, place);
            1
        }
    }
}
