// What a first unit tells, of either form, by tables that are lent: the size of an item whose header it is, whether it is a plain
// primitive, which small groups are entered and by which table, and where indexed items stand, whether it is one; what it tells with the
// unit behind it: a small variable value; and how far characters are known. Each answer is right where the tables are.
#![tactic(auto)]

ghost use Rattle.std.specs.Prelude.{◌≡◌, ◌-◌, ◌/◌, ◌≤◌, ◌<◌, min, length};
ghost use Rattle.format.specs.Units.{domain};
ghost use Rattle.format.specs.Registry.{is_indexed, is_overrideable};
ghost use Rattle.runs.specs.Plain.{plain_table, plain_at, sized_at, small_at, group_at, letter_at, nested};
ghost use Rattle.runs.specs.Levels.{Clear};
ghost use Rattle.runs_value.specs.Values.{valued_at};
ghost use Rattle.runs_indexed.specs.Indexed.{indexed_at};
ghost use Rattle.runs_tables.specs.Lent.{Lent};

use format::Form;
use runs_tables::Tables;

pub fn plain(form: Form, tables: &Tables, s: &[u8], at: usize) -> usize
    ensures { Lent tables.now → plain_at plain_table ((domain form).sextets s.now) at ≡ result }
{
    match form {
        Form::Text => runs_text::plain_text(&tables.values, &tables.rows, s, at),
        Form::Binary => runs_binary::plain_binary(&tables.rows, s, at),
    }
}

pub fn sized(form: Form, tables: &Tables, s: &[u8], at: usize) -> usize
    ensures { Lent tables.now → sized_at plain_table ((domain form).sextets s.now) at ≡ result }
{
    match form {
        Form::Text => runs_text::sized_text(&tables.values, &tables.rows, s, at),
        Form::Binary => runs_binary::sized_binary(&tables.rows, s, at),
    }
}

// A small variable value that is accepted, by its header and the unit behind it.
pub fn valued(form: Form, tables: &Tables, s: &[u8], at: usize) -> usize
    ensures { Lent tables.now → valued_at ((domain form).sextets s.now) at ≡ result }
{
    match form {
        Form::Text => runs_text::valued_text(&tables.values, s, at),
        Form::Binary => runs_binary::valued_binary(s, at),
    }
}

// An indexed item that is accepted, by its header.
pub fn indexed(form: Form, tables: &Tables, s: &[u8], at: usize) -> usize
    ensures { Lent tables.now → indexed_at ((domain form).sextets s.now) at ≡ result }
{
    match form {
        Form::Text => runs_text::indexed_text(&tables.values, s, at),
        Form::Binary => runs_binary::indexed_binary(s, at),
    }
}

// A small group, whichever table frames its items.
pub fn small(form: Form, tables: &Tables, s: &[u8], at: usize) -> usize
    ensures { Lent tables.now → small_at ((domain form).sextets s.now) at ≡ result }
{
    match form {
        Form::Text => runs_text_groups::small_text(&tables.values, &tables.classes, s, at),
        Form::Binary => runs_binary::small_binary(s, at),
    }
}

// Whether the indexed table frames its items.
pub fn signed(form: Form, tables: &Tables, s: &[u8], at: usize) -> bool
    ensures { Lent tables.now → 0 < small_at ((domain form).sextets s.now) at → result ≡ is_indexed (letter_at ((domain form).sextets s.now) at) }
{
    match form {
        Form::Text => runs_text_groups::signed_text(&tables.classes, s, at),
        Form::Binary => runs_binary::signed_binary(s, at),
    }
}

// Whether 7 is asked of its first item, where the master table frames them.
pub fn marks(form: Form, tables: &Tables, s: &[u8], at: usize) -> bool
    ensures { Lent tables.now → 0 < group_at ((domain form).sextets s.now) at → result ≡ is_overrideable (letter_at ((domain form).sextets s.now) at) }
{
    match form {
        Form::Text => runs_text_groups::marks_text(&tables.classes, s, at),
        Form::Binary => runs_binary::marks_binary(s, at),
    }
}

// How many small groups whose items the master table frames, of so many at most, stand one in the other from a unit on, each all that is
// left up to another unit.
pub fn nested(form: Form, tables: &Tables, s: &[u8], at: usize, stop: usize, most: usize) -> usize
    ensures { (result ≤ most) × (result ≤ stop - at) × (Lent tables.now → stop ≤ length s.now / (domain form).unit → nested (group_at ((domain form).sextets s.now)) stop most at ≡ result) }
{
    match form {
        Form::Text => runs_text_groups::nested_text(
            &tables.values,
            &tables.classes,
            s,
            at,
            stop,
            most,
        ),
        Form::Binary => runs_binary::nested_binary(s, at, stop, most),
    }
}

// ---- known characters

// How far the characters from a unit on are known, where they are known up to another.
pub fn known(form: Form, s: &[u8], at: usize, clean: usize) -> usize
    ensures { Clear ((domain form).sextets s.now) at clean → Clear ((domain form).sextets s.now) at result }
{
    match form {
        Form::Text => {
            if at < clean {
                return clean;
            }
            if s.len() / 4 < at {
                return clean;
            }
            let from = 4 * at;
            at + alphabet_search::first_stranger(&s[from..]) / 4
        }
        Form::Binary => s.len() / 3,
    }
}
