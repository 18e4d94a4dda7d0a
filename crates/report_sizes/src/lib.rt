// The sizes of a stream's items, of either form: of the one at a unit, by its first unit where that tells, else by framing; and how
// many that begin like it follow it, and so have its size. The tables are lent. Positions count units.
#![tactic(auto)]

ghost use Rattle.std.specs.Prelude.{◌≡◌, ◌+◌, ◌-◌, ◌*◌, ◌/◌, ◌≤◌, ◌<◌, length, get_or};
ghost use Rattle.format.specs.Alphabet.{sextet_table};
ghost use Rattle.format.specs.Units.{domain};
ghost use Rattle.runs.specs.Plain.{small_at};
ghost use Rattle.runs.specs.Levels.{Clear};
ghost use Rattle.runs.specs.Runs.{Run};
ghost use Rattle.runs_tables.specs.Lent.{Lent};
ghost use Rattle.report_sizes.specs.Sizes.{Grouped, Tells, size_of, size_at, letter_by};

use format::{Form, Framed};
use runs_tables::Tables;

// ---- sizes

// The size that a known first unit tells, or 0.
fn told(form: Form, tables: &Tables, s: &[u8], clean: usize, at: usize) -> usize
    ensures { Lent tables.now → Clear ((domain form).sextets s.now) at clean → Tells ((domain form).sextets s.now) at result }
{
    if clean <= at {
        return 0;
    }
    let g = report_first::small(form, tables, s, at);
    if 0 < g {
        return g;
    }
    report_first::sized(form, tables, s, at)
}

// The size of the small group at a unit, if its header is known and it ends within the stream; else 0.
pub fn group_size(form: Form, tables: &Tables, s: &[u8], clean: usize, at: usize) -> usize
    ensures { (result ≤ length s.now / (domain form).unit - at) × (Lent tables.now → Grouped (domain form) s.now clean at result) }
{
    if clean <= at {
        return 0;
    }
    let all = report_units::units(form, s.len());
    if all <= at {
        return 0;
    }
    let g = report_first::small(form, tables, s, at);
    if all - at < g {
        return 0;
    }
    g
}

fn size_of(f: Framed) -> usize
    ensures { result ≡ size_of f }
{
    match f {
        Framed::Item {
            kind: _,
            head: _,
            size,
        } => size,
        Framed::Unframed {
            number: _,
            place: _,
        } => 0,
    }
}

// The size in units of the item at a unit of a stream, or 0 where it is not framed.
pub fn size(form: Form, tables: &Tables, s: &[u8], clean: usize, at: usize) -> usize
    ensures { (result ≤ length s.now / (domain form).unit - at) × (Lent tables.now → Clear ((domain form).sextets s.now) at clean → result ≡ size_at (domain form) s.now at) }
{
    let all = report_units::units(form, s.len());
    let m = told(form, tables, s, clean, at);
    if 0 < m {
        if at < all {
            if m <= all - at {
                return m;
            }
        }
    }
    size_of(report_frame::framed(form, s, at))
}

// ---- items behind it that begin alike, and so have its size

// The letter of a first unit.
fn letter(form: Form, values: &[u8; 256], s: &[u8], at: usize) -> u8
    requires { at < length s.now / (domain form).unit }
    ensures { values.now ≡ sextet_table → result ≡ letter_by form (get_or s.now ((domain form).unit * at) 0) }
{
    match form {
        Form::Text => values[usize::from(s[4 * at])],
        Form::Binary => s[3 * at] / 4,
    }
}

// How many items with the letter of the one at a unit follow it, if that tells its size.
pub fn of_letter(
    form: Form,
    tables: &Tables,
    s: &[u8],
    clean: usize,
    at: usize,
    size: usize,
) -> usize
    ensures { (result * size ≤ length s.now / (domain form).unit - (at + size)) × (Lent tables.now → Clear ((domain form).sextets s.now) at clean → 0 < size → Run (size_at (domain form) s.now) size (length s.now / (domain form).unit) (at + size) result) }
{
    if report_units::units(form, s.len()) <= at {
        return 0;
    }
    let a = letter(form, &tables.values, s, at);
    if 51 < a {
        return 0;
    }
    if runs::letter_row(&tables.rows, a) % 64 != size {
        return 0;
    }
    report_followers::followers(form, s, false, clean, at, size)
}

// How many groups with the header of the one at a unit follow it.
pub fn of_header(form: Form, s: &[u8], clean: usize, at: usize, size: usize) -> usize
    ensures { (result * size ≤ length s.now / (domain form).unit - (at + size)) × (Clear ((domain form).sextets s.now) at clean → small_at ((domain form).sextets s.now) at ≡ size → 0 < size → Run (size_at (domain form) s.now) size (length s.now / (domain form).unit) (at + size) result) }
{
    report_followers::followers(form, s, true, clean, at, size)
}
