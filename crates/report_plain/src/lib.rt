// The rows of plain primitives of one letter that follow one another, of either form, each stored as the item is looked at. The tables
// are lent. Positions count units, the row's place bytes of the buffer.
#![tactic(auto)]

ghost use Rattle.std.specs.Prelude.{◌≡◌, List, ℕ, ◌+◌, ◌-◌, ◌*◌, ◌/◌, ◌≤◌, ◌<◌, min, length};
ghost use Rattle.std.proofs.lemmas.List.Edits.{sets};
ghost use Rattle.format.specs.Units.{domain};
ghost use Rattle.format.specs.Report.{row_bytes, concat};
ghost use Rattle.runs.specs.Plain.{plain_table, plain_at};
ghost use Rattle.runs.specs.Runs.{Run};
ghost use Rattle.filling.specs.Stores.{run_of};
ghost use Rattle.runs_tables.specs.Lent.{Lent};
ghost use Rattle.report_plain.specs.Plain.{Like, Behind, Followed};

use format::Form;
use runs_tables::Tables;

// In text the letter tells the size, and below what the value of the next character has to be.
fn limit_text(values: &[u8; 256], rows: &[u16; 192], x: u8, size: usize) -> usize
    ensures { Like (Form.Text) values.now rows.now x size result }
{
    let a = values[usize::from(x)];
    if 51 < a {
        return 0;
    }
    let row = runs::letter_row(rows, a);
    if row % 64 != size {
        return 0;
    }
    row / 64
}

// In binary the first byte has the code's two zero bits: nothing more is asked.
fn limit_binary(rows: &[u16; 192], x: u8, size: usize) -> usize
    ensures { (values : List ℕ) → Like (Form.Binary) values rows.now x size result }
{
    if 0 < x % 4 {
        return 0;
    }
    if 207 < x {
        return 0;
    }
    let row = runs::letter_row(rows, x / 4);
    if row % 64 != size {
        return 0;
    }
    if row / 64 < 16 {
        return 0;
    }
    1
}

// What else is asked of items that begin with an element to be plain primitives of so many units; 0 says nothing.
fn limit(form: Form, tables: &Tables, x: u8, size: usize) -> usize
    ensures { Like form tables.now.values tables.now.rows x size result }
{
    match form {
        Form::Text => limit_text(&tables.values, &tables.rows, x, size),
        Form::Binary => limit_binary(&tables.rows, x, size),
    }
}

// Of the items behind one, up to a unit.
fn put_within(
    form: Form,
    tables: &Tables,
    s: &[u8],
    at: usize,
    size: usize,
    end: usize,
    out: &mut [u8],
    row: usize,
) -> usize
    requires { Behind form s.now at size end }
    ensures { Followed form tables.now.values tables.now.rows s.now at size end out.old row result out.new }
{
    let u = report_units::unit(form);
    let x = s[u * at];
    let limit = limit(form, tables, x, size);
    if limit == 0 {
        return 0;
    }
    let from = u * (at + size);
    report_alike::put_alike(
        form,
        &tables.values,
        s,
        x,
        limit,
        u * size,
        from,
        u * end,
        out,
        row,
    )
}

// The rows, at a place of the buffer, of the plain primitives with the letter and size of the item at a unit that follow it and are
// known up to a unit: how many they are.
pub fn put_followers(
    form: Form,
    tables: &Tables,
    s: &[u8],
    clean: usize,
    at: usize,
    size: usize,
    out: &mut [u8],
    row: usize,
) -> usize
    ensures { (result * size ≤ length s.now / (domain form).unit - (at + size)) × (0 < size → Lent tables.now → Run (plain_at plain_table ((domain form).sextets s.now)) size (min clean (length s.now / (domain form).unit)) (at + size) result) × (out.new ≡ sets out.old row (concat row_bytes (run_of ((domain form).unit * (at + size)) ((domain form).unit * size) result))) }
{
    let end = clean.min(report_units::units(form, s.len()));
    if end <= at {
        return 0;
    }
    if end - at < size {
        return 0;
    }
    put_within(form, tables, s, at, size, end, out, row)
}
