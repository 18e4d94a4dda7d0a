// How many items a stream has, of either form, since room is asked by them. Sizes are told by first units where these tell them, and
// like items that follow one another are counted at once. The tables are lent. Positions count units; in text, `clean` is a unit in
// front of which, from the present one on, all characters are known.
#![tactic(auto)]

ghost use Rattle.report_count.specs.Counts.{Small, Together, Next, Total};

use format::Form;
use runs_tables::Tables;

// Like items that are counted at once: units and items, none where nothing is framed.
#[derive(Clone, Copy)]
struct Step {
    units: usize,
    items: usize,
}

// An item of so many units, and so many of its size behind it.
fn stepped(size: usize, followers: usize) -> Step
    requires { Small size followers }
    ensures { Together size followers result.units result.items }
{
    Step {
        units: size + followers * size,
        items: 1 + followers,
    }
}

// The item at a unit, and those that begin like it.
fn next(form: Form, tables: &Tables, s: &[u8], clean: usize, at: usize) -> Step
    ensures { Next form tables.now s.now clean at result.units result.items }
{
    let g = report_sizes::group_size(form, tables, s, clean, at);
    if 0 < g {
        // Those of signatures differ in size: to ask the next one costs more than it spares.
        if report_first::signed(form, tables, s, at) {
            return stepped(g, 0);
        }
        return stepped(g, report_sizes::of_header(form, s, clean, at, g));
    }
    let m = report_sizes::size(form, tables, s, clean, at);
    if m == 0 {
        return Step { units: 0, items: 0 };
    }
    stepped(m, report_sizes::of_letter(form, tables, s, clean, at, m))
}

pub fn count(form: Form, tables: &Tables, s: &[u8], known: usize) -> usize
    ensures { Total form tables.now s.now known result }
{
    let u = report_units::unit(form);
    let mut clean = known;
    let mut a = 0;
    let mut i = 0;
    while u * a < s.len() {
        clean = report_first::known(form, s, a, clean);
        let l = next(form, tables, s, clean, a);
        if l.units == 0 {
            return i;
        }
        a = a + l.units;
        i = i + l.items;
    }
    i
}
