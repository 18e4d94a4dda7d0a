// The last sections of a report, behind the rows of its items, whatever their width: the count of refusals, which stands in front of
// their rows, and the remainder with its count. Of any numbers: where a buffer has no room for them, nothing is stored.
#![tactic(auto)]

ghost use Rattle.std.specs.Prelude.{◌≡◌, [], ◌∷◌, ◌++◌, ◌+◌, ◌*◌, ◌≤◌};
ghost use Rattle.format.specs.Report.{be4};
ghost use Rattle.report_rows.specs.Stores.{put};
ghost use Rattle.report_last.specs.Last.{refused_of, Last, Lasts};

// How the rows ended, so many items being refused: with the stream, or at an element where nothing is framed, for this reason.
#[derive(Clone, Copy)]
pub enum End {
    Whole {
        refused: usize,
    },
    Rest {
        offset: usize,
        refused: usize,
        number: u8,
    },
}

// The counts of refusals, behind the items' rows, and of remainders, behind the refusals' rows: where they end.
fn put_counts(out: &mut [u8], at: usize, k: usize, rest: usize) -> usize
    requires { at + 9 * k ≤ 9223372036854775807 }
    ensures { (result ≡ at + 8 + 9 * k) × (out.new ≡ put (put out.old at (be4 k)) (at + 4 + 9 * k) (be4 rest)) }
{
    report_rows::put_number(out, at, k);
    report_rows::put_number(out, at + 4 + 9 * k, rest);
    at + 8 + 9 * k
}

// The counts, and a remainder: the report's length.
fn put_rest(out: &mut [u8], at: usize, k: usize, offset: usize, number: u8) -> usize
    requires { at + 9 * k ≤ 9223372036854775807 }
    ensures { (result ≡ at + 13 + 9 * k) × (out.new ≡ put (put (put out.old at (be4 k)) (at + 4 + 9 * k) (be4 1)) (at + 8 + 9 * k) (be4 offset ++ (number ∷ []))) }
{
    let end = put_counts(out, at, k, 1);
    report_rows::put_told(out, end, offset, number);
    end + 5
}

fn refused(end: End) -> usize
    ensures { result ≡ refused_of end }
{
    match end {
        End::Whole { refused } => refused,
        End::Rest {
            offset: _,
            refused,
            number: _,
        } => refused,
    }
}

// By the way that the rows ended.
fn put_end(out: &mut [u8], at: usize, end: End) -> usize
    requires { at + 9 * refused_of end ≤ 9223372036854775807 }
    ensures { Last at end out.old result out.new }
{
    match end {
        End::Whole { refused } => put_counts(out, at, refused, 0),
        End::Rest {
            offset,
            refused,
            number,
        } => put_rest(out, at, refused, offset, number),
    }
}

// The last sections of a report whose items' rows end at a place: its length.
pub fn put_last(out: &mut [u8], at: usize, end: End) -> usize
    ensures { Lasts at end out.old result out.new }
{
    if out.len() < at {
        return 0;
    }
    if (out.len() - at) / 9 < refused(end) {
        return 0;
    }
    put_end(out, at, end)
}
