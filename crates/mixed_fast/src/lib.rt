// The fast way to an accepted CESR item of a mixed stream, of either form: that of the reports, on the part of the stream from the item on.
// One-sided: a size says that the item is accepted and so long, 0 says nothing. The tables are lent.
#![tactic(auto)]

ghost use Rattle.mixed_fast.specs.Found.{Units, Fast};

use format::Form;
use runs_tables::Tables;

// The units of the item at a part's start, if it is accepted and known up to a unit; else 0.
fn units_accepted(form: Form, tables: &Tables, part: &[u8], clean: usize) -> usize
    ensures { Units form tables.now part.now clean result }
{
    let g = report_sizes::group_size(form, tables, part, clean, 0);
    if 0 < g {
        if !report_first::signed(form, tables, part, 0) {
            if report_group::group_accepted(form, tables, part, clean, 0, g) {
                return g;
            }
            return 0;
        }
    }
    report_fast::accepted(form, tables, part, clean, 0)
}

// The bytes of the item at a byte, where characters are known up to another.
pub fn accepted(form: Form, tables: &Tables, s: &[u8], at: usize, to: usize) -> usize
    ensures { Fast form tables.now s.now at to result }
{
    if s.len() < at {
        return 0;
    }
    let clean = mixed_known::clean(form, s, at, to);
    let n = units_accepted(form, tables, &s[at..], clean);
    n * report_units::unit(form)
}
