// The rows of a mixed report's item, stored at places of a lent buffer: an item's row has ten bytes, the last of which tells its form. What
// does not fit is not stored.
#![tactic(auto)]

ghost use Rattle.std.specs.Prelude.{◌≡◌, [], ◌∷◌, ◌+◌, length};
ghost use Rattle.format.specs.Report.{refusal};
ghost use Rattle.report_rows.specs.Stores.{put};
ghost use Rattle.mixed_rows.specs.Rows.{item_put};

use format::Verdict;

// The last byte of the row at a place.
fn put_form(out: &mut [u8], at: usize, form: u8)
    ensures { out.new ≡ put out.old (at + 9) (form ∷ []) }
{
    if out.len() < 10 {
        return;
    }
    if at <= out.len() - 10 {
        out[at + 9] = form;
    }
}

// An item's row, and where it is refused, its refusal's row at a place of its own: how many refusals that were.
pub fn put_item(
    out: &mut [u8],
    at: usize,
    to: usize,
    index: usize,
    offset: usize,
    size: usize,
    v: Verdict,
    form: u8,
) -> usize
    ensures { (result ≡ length (refusal index v)) × (out.new ≡ item_put out.old at to index offset size v form) }
{
    let refused = report_rows::put_item(out, at, to, index, offset, size, v);
    put_form(out, at, form);
    refused
}
