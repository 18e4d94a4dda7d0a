// One turn of a report's loop, of either form: what stands at a unit is judged and its rows are stored, by the fast way where that
// accepts it, with the like items or the signature groups that follow it, and else by the general way. Each function does what it says
// wherever the places that it is given are within the stream and the buffer is filled up to there. Positions count units, u elements each;
// in text, `clean` is a unit in front of which, from the present one on, all characters are known.
#![tactic(auto)]

ghost use Rattle.std.specs.Prelude.{◌≡◌, ◌-◌, ◌*◌, ◌/◌, ◌≤◌, ◌<◌, length};
ghost use Rattle.format.specs.Units.{domain};
ghost use Rattle.runs.specs.Plain.{group_at};
ghost use Rattle.runs.specs.Levels.{Clear};
ghost use Rattle.runs_tables.specs.Lent.{Lent};
ghost use Rattle.report_fast_laws.specs.Fast.{Good};
ghost use Rattle.report_general.specs.Turns.{Placed, Turned};
ghost use Rattle.report_turn.specs.Turns.{Next, RowPut, Turns};

use filling::Position;
use format::Form;
use report_general::Turn;
use runs_tables::Tables;

// A small group of so many units, by the fast way where that accepts it.
fn put_group(
    form: Form,
    u: usize,
    tables: &Tables,
    s: &[u8],
    out: &mut [u8],
    clean: usize,
    here: Position,
    size: usize,
) -> Turn
    requires { Placed form u s.now here.items here.at here.stored here.refused × (size ≤ length s.now / (domain form).unit - here.at) }
    ensures { Lent tables.now → Clear ((domain form).sextets s.now) here.at clean → group_at ((domain form).sextets s.now) here.at ≡ size → Turned form u s.now here.items here.at here.stored here.refused out.old result out.new }
{
    if report_group::group_accepted(form, tables, s, clean, here.at, size) {
        report_rows::put_row(out, 4 + 9 * here.stored, u * here.at, u * size, 0);
        return Turn::Stored {
            units: size,
            items: 1,
            refused: 0,
        };
    }
    report_general::put_general(form, s, out, here)
}

// An accepted item of so many units, and the plain primitives of its letter that follow it.
fn put_accepted(
    form: Form,
    u: usize,
    tables: &Tables,
    s: &[u8],
    out: &mut [u8],
    clean: usize,
    here: Position,
    size: usize,
) -> Turn
    requires { Placed form u s.now here.items here.at here.stored here.refused × (size ≤ length s.now / (domain form).unit - here.at) × (0 < size) }
    ensures { Lent tables.now → Clear ((domain form).sextets s.now) here.at clean → Good (domain form) s.now here.at size → Turned form u s.now here.items here.at here.stored here.refused out.old result out.new }
{
    report_rows::put_row(out, 4 + 9 * here.stored, u * here.at, u * size, 0);
    let r = report_plain::put_followers(
        form,
        tables,
        s,
        clean,
        here.at,
        size,
        out,
        13 + 9 * here.stored,
    );
    Turn::Stored {
        units: size + r * size,
        items: 1 + r,
        refused: 0,
    }
}

// What stands at a unit and is no small group that first units tell.
fn put_other(
    form: Form,
    u: usize,
    tables: &Tables,
    s: &[u8],
    out: &mut [u8],
    clean: usize,
    here: Position,
) -> Turn
    requires { Placed form u s.now here.items here.at here.stored here.refused }
    ensures { Lent tables.now → Clear ((domain form).sextets s.now) here.at clean → Turned form u s.now here.items here.at here.stored here.refused out.old result out.new }
{
    let p = report_fast::accepted(form, tables, s, clean, here.at);
    if 0 < p {
        return put_accepted(form, u, tables, s, out, clean, here, p);
    }
    report_general::put_general(form, s, out, here)
}

// The size of the signature group at a unit, if it ends in front of another, first units tell that it is accepted and a row is left for it;
// else 0.
fn next_signed(
    form: Form,
    tables: &Tables,
    s: &[u8],
    items: usize,
    end: usize,
    at: usize,
    stored: usize,
) -> usize
    ensures { Next form tables.now s.now items end at stored result }
{
    if items <= stored {
        return 0;
    }
    report_fast_indexed::signatures(form, tables, s, at, end)
}

// The same where a small group of so many units stands, or none.
fn first_signed(
    form: Form,
    tables: &Tables,
    s: &[u8],
    end: usize,
    here: Position,
    g: usize,
) -> usize
    ensures { Next form tables.now s.now here.items end here.at here.stored result }
{
    if g == 0 {
        return 0;
    }
    next_signed(form, tables, s, here.items, end, here.at, here.stored)
}

// The row of an accepted item. It is stored in two parts, each where it has room, so that the compiler joins the bytes of the offset to
// one.
fn put_taken(out: &mut [u8], i: usize, offset: usize, size: usize)
    requires { i ≤ 512409557603043100 }
    ensures { RowPut out.old i offset size out.new }
{
    report_rows::put_number(out, 4 + 9 * i, offset);
    report_rows::put_told(out, 8 + 9 * i, size, 0);
}

// Signature groups that follow one another from a unit on, as far as first units tell that they are accepted; where none stands there, what
// does. So many units has the small group there, or none.
fn put_signed(
    form: Form,
    u: usize,
    tables: &Tables,
    s: &[u8],
    out: &mut [u8],
    clean: usize,
    here: Position,
    g: usize,
) -> Turn
    requires { Placed form u s.now here.items here.at here.stored here.refused }
    ensures { Lent tables.now → Clear ((domain form).sextets s.now) here.at clean → Turned form u s.now here.items here.at here.stored here.refused out.old result out.new }
{
    let end = clean.min(report_units::units(form, s.len()));
    let mut at = here.at;
    let mut stored = here.stored;
    let mut size = first_signed(form, tables, s, end, here, g);
    while 0 < size {
        put_taken(out, stored, u * at, u * size);
        at += size;
        stored += 1;
        size = next_signed(form, tables, s, here.items, end, at, stored);
    }
    if here.at < at {
        let units = at - here.at;
        let items = stored - here.stored;
        return Turn::Stored {
            units,
            items,
            refused: 0,
        };
    }
    put_other(form, u, tables, s, out, clean, here)
}

// What stands at a unit.
fn put_here(
    form: Form,
    u: usize,
    tables: &Tables,
    s: &[u8],
    out: &mut [u8],
    clean: usize,
    here: Position,
) -> Turn
    requires { Placed form u s.now here.items here.at here.stored here.refused }
    ensures { Lent tables.now → Clear ((domain form).sextets s.now) here.at clean → Turned form u s.now here.items here.at here.stored here.refused out.old result out.new }
{
    let g = report_sizes::group_size(form, tables, s, clean, here.at);
    if 0 < g {
        if !report_first::signed(form, tables, s, here.at) {
            return put_group(form, u, tables, s, out, clean, here, g);
        }
    }
    put_signed(form, u, tables, s, out, clean, here, g)
}

// What stands at a unit, where so many items are stored, and so many of them refused.
pub fn put_turn(
    form: Form,
    tables: &Tables,
    s: &[u8],
    out: &mut [u8],
    clean: usize,
    here: Position,
) -> Turn
    ensures { Turns form tables.now s.now here.items clean here.at here.stored here.refused out.old result out.new }
{
    if report_general::is_place(form, s, out.len(), here) {
        let u = report_units::unit(form);
        return put_here(form, u, tables, s, out, clean, here);
    }
    Turn::Rest { number: 0 }
}
