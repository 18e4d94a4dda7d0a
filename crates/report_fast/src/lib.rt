// The fast way to an accepted item, of either form and by either table: what first units tell. One-sided: a size says that the item is
// accepted and so long, 0 says nothing, and the general way is asked. So what a refusal is, and where, is never decided here. Positions
// count units.
#![tactic(auto)]

ghost use Rattle.std.specs.Prelude.{Bool, true, false, ℕ, ◌+◌, ◌-◌, ◌/◌, ◌≤◌, ◌<◌, length};
ghost use Rattle.format.specs.Units.{domain};
ghost use Rattle.format.specs.Judging.{max_depth};
ghost use Rattle.runs.specs.Levels.{Clear};
ghost use Rattle.report_next.specs.Next.{is_ruled, holds_indexed};
ghost use Rattle.runs_tables.specs.Lent.{Lent};
ghost use Rattle.report_found.specs.Limits.{longest};
ghost use Rattle.report_fast_laws.specs.Fast.{Reach, Accepts, Signed, Take, Passes};

use format::{Form, Framed, Kind};
use judging::MAX_DEPTH;
use runs_tables::Tables;

// ---- items accepted whole, where all is known

// A small signature group of so many units at a unit, if it is accepted: its size, else 0. First units tell most; the others are looked at
// item by item.
fn taken_signed(
    form: Form,
    tables: &Tables,
    s: &[u8],
    levels: usize,
    at: usize,
    stop: usize,
    size: usize,
) -> usize
    requires { Reach form s.now at stop × (at < stop) × (size ≤ stop - at) × (0 < size) × (0 < levels) }
    ensures { (first : Bool) → Signed form tables.now s.now at size → Take form tables.now s.now false levels first at stop result }
{
    let told = report_fast_indexed::signatures(form, tables, s, at, stop);
    if 0 < told {
        return told;
    }
    let to = at + size;
    let left = levels - 1;
    if report_fast_indexed::accepts_indexed(form, tables, s, left, false, at + 1, to) {
        return size;
    }
    0
}

// The next item from a unit on, which is no plain primitive and no small value, if it ends in front of another unit and is accepted: its
// size, else 0.
#[cycle(accepts_entered_other_taken)]
fn taken(
    form: Form,
    tables: &Tables,
    s: &[u8],
    levels: usize,
    first: bool,
    at: usize,
    stop: usize,
) -> usize
    requires { Reach form s.now at stop × (at < stop) }
    ensures { Take form tables.now s.now false levels first at stop result }
{
    let g = report_first::small(form, tables, s, at);
    if 0 < g {
        if stop - at < g {
            return 0;
        }
        if levels == 0 {
            return 0;
        }
        if report_first::signed(form, tables, s, at) {
            return taken_signed(form, tables, s, levels, at, stop, g);
        }
        let marks = report_first::marks(form, tables, s, at);
        let left = levels - 1;
        if accepts(form, tables, s, left, marks, at + 1, at + g) {
            return g;
        }
        return 0;
    }
    other(form, tables, s, levels, first, at, stop)
}

// The same of an item that its first units do not tell: as the general way finds it.
#[cycle(accepts_entered_other_taken)]
fn other(
    form: Form,
    tables: &Tables,
    s: &[u8],
    levels: usize,
    first: bool,
    at: usize,
    stop: usize,
) -> usize
    requires { Reach form s.now at stop × (at < stop) }
    ensures { Take form tables.now s.now false levels first at stop result }
{
    match report_found::found(form, s, false, levels, first, at, stop) {
        Framed::Unframed {
            number: _,
            place: _,
        } => 0,
        Framed::Item { kind, head, size } => {
            if report_next::is_entered(kind) {
                let from = at + head;
                let to = at + size;
                if entered(form, tables, s, kind, levels - 1, from, to) {
                    return size;
                }
                return 0;
            }
            size
        }
    }
}

// Whether the items of a group of this kind, from a unit to another, are accepted: the kind says by which table they are framed.
#[cycle(accepts_entered_other_taken)]
fn entered(
    form: Form,
    tables: &Tables,
    s: &[u8],
    kind: Kind,
    levels: usize,
    at: usize,
    stop: usize,
) -> bool
    requires { Reach form s.now at stop }
    ensures { Passes form tables.now s.now (holds_indexed kind) levels (is_ruled kind) at stop result }
{
    let marks = report_next::is_ruled(kind);
    if report_next::holds_indexed(kind) {
        return report_fast_indexed::accepts_indexed(form, tables, s, levels, marks, at, stop);
    }
    accepts(form, tables, s, levels, marks, at, stop)
}

// Whether the items from a unit to the end of their group, framed by the master table, are accepted.
#[cycle(accepts_entered_other_taken)]
fn accepts(
    form: Form,
    tables: &Tables,
    s: &[u8],
    levels: usize,
    first: bool,
    at: usize,
    stop: usize,
) -> bool
    requires { Reach form s.now at stop }
    ensures { Passes form tables.now s.now false levels first at stop result }
{
    let mut i = at;
    let mut ruled = first;
    while i < stop {
        let k = report_first::plain(form, tables, s, i);
        if 0 < k {
            if stop - i < k {
                return false;
            }
            i = i + k;
        } else {
            let v = report_fast_told::valued(form, tables, s, i, stop);
            if 0 < v {
                i = i + v;
            } else {
                let n = taken(form, tables, s, levels, ruled, i, stop);
                if n == 0 {
                    return false;
                }
                i = i + n;
            }
        }
        ruled = false;
    }
    true
}

// The same of any units: what is past the end is not accepted.
pub fn passes(
    form: Form,
    tables: &Tables,
    s: &[u8],
    indexed: bool,
    levels: usize,
    first: bool,
    at: usize,
    stop: usize,
) -> bool
    ensures { Passes form tables.now s.now indexed levels first at stop result }
{
    if report_units::units(form, s.len()) < stop {
        return false;
    }
    if stop < at {
        return false;
    }
    if indexed {
        return report_fast_indexed::accepts_indexed(form, tables, s, levels, first, at, stop);
    }
    accepts(form, tables, s, levels, first, at, stop)
}

// ---- at top level

// The size of the item at a unit, if it ends in front of another unit and is accepted; else 0. Small values of every type go one way, so
// that a text costs what other values do.
fn accepted_within(form: Form, tables: &Tables, s: &[u8], at: usize, stop: usize) -> usize
    requires { Reach form s.now at stop × (at < stop) }
    ensures { Take form tables.now s.now false max_depth true at stop result }
{
    let v = report_fast_told::valued(form, tables, s, at, stop);
    if 0 < v {
        return v;
    }
    let k = report_first::plain(form, tables, s, at);
    if 0 < k {
        if stop - at < k {
            return 0;
        }
        return k;
    }
    taken(form, tables, s, MAX_DEPTH, true, at, stop)
}

// The size of the item at a unit of a stream, if it is accepted and known up to a unit; else 0.
pub fn accepted(form: Form, tables: &Tables, s: &[u8], clean: usize, at: usize) -> usize
    ensures { (result ≤ length s.now / (domain form).unit - at) × (length s.now ≤ longest → Lent tables.now → Clear ((domain form).sextets s.now) at clean → Accepts (domain form) s.now at result) }
{
    let end = clean.min(report_units::units(form, s.len()));
    if end <= at {
        return 0;
    }
    accepted_within(form, tables, s, at, end)
}
