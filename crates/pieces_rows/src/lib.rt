// The rows of an item whose last unit was read (02 f): its row, and its refusal's where it is refused, each kind in a buffer of its own. A row
// that does not fit is not stored.
#![tactic(auto)]

ghost use Rattle.std.specs.Prelude.{◌≡◌, ◌≤◌};
ghost use Rattle.format.specs.Report.{placed};
ghost use Rattle.pieces.specs.Headers.{verdict_of};
ghost use Rattle.pieces_rows.specs.Rows.{Small, Put};

use format::Verdict;
use pieces_stage::Stage;

// More than any count or place of a unit.
const FAR: usize = 2147483648;

// A refusal by its number, 0 for none, its place counted in elements, u to the unit.
fn verdict(u: usize, number: u8, place: usize) -> Verdict
    requires { u ≤ 4 }
    ensures { result ≡ placed u (verdict_of number place) }
{
    if number == 0 {
        return Verdict::Accepted;
    }
    Verdict::Refused {
        number,
        place: place / 4 * u + place % 4,
    }
}

fn put_both(u: usize, g: Stage, items: &mut [u8], refusals: &mut [u8], i: usize, j: usize) -> usize
    requires { Small u g i j }
    ensures { Put u g i j items.old items.new refusals.old refusals.new result }
{
    let offset = g.start * u;
    let size = (g.read - g.start) * u;
    report_rows::put_row(items, 9 * i, offset, size, g.number);
    let v = verdict(u, g.number, g.place);
    let end = refusals.len();
    report_rows::put_item(refusals, end, 9 * j, g.items, 0, 0, v)
}

// Its row behind i others, and its refusal, if it is one, behind j: how many refusals that were.
pub fn put_rows(
    u: usize,
    g: Stage,
    items: &mut [u8],
    refusals: &mut [u8],
    i: usize,
    j: usize,
) -> usize
    ensures { Small u g i j → Put u g i j items.old items.new refusals.old refusals.new result }
{
    if 4 < u {
        return 0;
    }
    if FAR < g.read {
        return 0;
    }
    if g.read < g.start {
        return 0;
    }
    if FAR < i {
        return 0;
    }
    if FAR < j {
        return 0;
    }
    put_both(u, g, items, refusals, i, j)
}
