// The fast way over the items of a signature group, which are indexed items, of either form: what first units tell, and the others as the
// general way finds them. To a small group that first units tell it is passed on from report_fast_told. One-sided, as all of the fast way:
// true and a size say that they are accepted, false and 0 say nothing. Positions count units.
#![tactic(auto)]

ghost use Rattle.std.specs.Prelude.{true, List, ℕ, ◌-◌, ◌≤◌, ◌<◌};
ghost use Rattle.report_fast_laws.specs.Fast.{Reach, Take, Passes};

use format::{Form, Framed};
pub use report_fast_told::signatures;
use runs_tables::Tables;

// The next indexed item from a unit on, which its first unit does not tell, if it ends in front of another unit and is accepted: its
// size, else 0. No group stands there.
fn other_indexed(form: Form, s: &[u8], levels: usize, first: bool, at: usize, stop: usize) -> usize
    requires { at < stop }
    ensures { (result ≤ stop - at) × (Reach form s.now at stop → (tables : Tables) → Take form tables s.now true levels first at stop result) }
{
    match report_found::found(form, s, true, levels, first, at, stop) {
        Framed::Unframed {
            number: _,
            place: _,
        } => 0,
        Framed::Item {
            kind,
            head: _,
            size,
        } => {
            if report_next::is_entered(kind) {
                return 0;
            }
            size
        }
    }
}

// Whether the indexed items from a unit to the end of their group are accepted. Of units that are not the stream's nothing is said.
pub fn accepts_indexed(
    form: Form,
    tables: &Tables,
    s: &[u8],
    levels: usize,
    first: bool,
    at: usize,
    stop: usize,
) -> bool
    ensures { Reach form s.now at stop → Passes form tables.now s.now true levels first at stop result }
{
    let mut i = at;
    let mut ruled = first;
    while i < stop {
        let told = report_first::indexed(form, tables, s, i);
        if 0 < told {
            if stop - i < told {
                return false;
            }
            i = i + told;
        } else {
            let n = other_indexed(form, s, levels, ruled, i, stop);
            if n == 0 {
                return false;
            }
            i = i + n;
        }
        ruled = false;
    }
    true
}
