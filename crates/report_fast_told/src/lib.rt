// The fast way where first units tell all, of either form: to a small variable value, by its header and the unit behind it, and to a small
// signature group, by the first units of its items. One-sided, as all of the fast way: true and a size say that they are accepted, false
// and 0 say nothing. Positions count units.
#![tactic(auto)]

ghost use Rattle.std.specs.Prelude.{Bool, true, false, ℕ, ◌-◌, ◌≤◌, ◌<◌};
ghost use Rattle.report_fast_laws.specs.Fast.{Reach, Take, Passes};

use format::Form;
use runs_tables::Tables;

// A small variable value at a unit, if it ends in front of another unit and the unit behind its header tells that it is accepted: its
// size, else 0.
pub fn valued(form: Form, tables: &Tables, s: &[u8], at: usize, stop: usize) -> usize
    ensures { (result ≤ stop - at) × (Reach form s.now at stop → (levels : ℕ) (first : Bool) → Take form tables.now s.now false levels first at stop result) }
{
    if stop <= at {
        return 0;
    }
    let k = report_first::valued(form, tables, s, at);
    if stop - at < k {
        return 0;
    }
    k
}

// Whether the indexed items from a unit to the end of their group are accepted, where first units tell all of them.
fn told_indexed(form: Form, tables: &Tables, s: &[u8], at: usize, stop: usize) -> bool
    ensures { Reach form s.now at stop → (levels : ℕ) → Passes form tables.now s.now true levels false at stop result }
{
    let mut i = at;
    while i < stop {
        let told = report_first::indexed(form, tables, s, i);
        if told == 0 {
            return false;
        }
        if stop - i < told {
            return false;
        }
        i = i + told;
    }
    true
}

// The size of the small signature group at a unit, if it ends in front of another unit and first units tell that its items are accepted;
// else 0.
pub fn signatures(form: Form, tables: &Tables, s: &[u8], at: usize, stop: usize) -> usize
    ensures { (result ≤ stop - at) × (Reach form s.now at stop → (levels : ℕ) (first : Bool) → 0 < levels → Take form tables.now s.now false levels first at stop result) }
{
    if stop <= at {
        return 0;
    }
    let size = report_first::small(form, tables, s, at);
    if stop - at < size {
        return 0;
    }
    if !report_first::signed(form, tables, s, at) {
        return 0;
    }
    if told_indexed(form, tables, s, at + 1, at + size) {
        return size;
    }
    0
}
