// What is to be written of an indexed code that a caller names, or why not, before its room is asked: 6, 12 and 15, in that order.
#![tactic(auto)]

ghost use Rattle.std.specs.Prelude.{◌≡◌};
ghost use Rattle.format.specs.Indexed.{row, named_index};
ghost use Rattle.indexed_fit.specs.Digits.{Few};
ghost use Rattle.indexed_code.specs.Plan.{plan_of};

use format::{IndexCode, IndexRow, Refusal};

fn plan_row(c: IndexRow, index: usize, ondex: usize, raw: usize) -> Result<IndexRow, Refusal<usize>>
    ensures { Few c → result ≡ plan_of (row c) index ondex raw }
{
    if !indexed_fit::is_fit(c, index, ondex, raw) {
        return Err(Refusal {
            number: 12,
            place: 0,
        });
    }
    if !indexed_fit::ondex_right(c, ondex) {
        return Err(Refusal {
            number: 15,
            place: 0,
        });
    }
    Ok(c)
}

// Of a raw value of so many bytes. Its room is asked later, by who writes it.
pub fn plan(
    code: IndexCode,
    index: usize,
    ondex: usize,
    raw: usize,
) -> Result<IndexRow, Refusal<usize>>
    ensures { result ≡ plan_of (named_index code) index ondex raw }
{
    let named = indexed_name::name_of(code);
    match named {
        None => Err(Refusal {
            number: 6,
            place: 0,
        }),
        Some(c) => plan_row(c, index, ondex, raw),
    }
}
