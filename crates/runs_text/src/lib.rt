// What the first unit at a position of a text decides, by its characters and the table lent: sizes, plain primitives, and where indexed
// items stand, these; and what it decides with the unit behind it: small variable values. Whether a character is known is not asked.
#![tactic(auto)]

ghost use Rattle.std.specs.Prelude.{◌≡◌, ℕ, ◌/◌, ◌<◌, length};
ghost use Rattle.runs.specs.Plain.{sized_at, plain_at, unit_by, sextets_by};
ghost use Rattle.runs_value.specs.Values.{number_at, valued_at};
ghost use Rattle.runs_indexed.specs.Indexed.{indexed_at};

// The four sextets of the unit at a position.
#[derive(Clone, Copy)]
struct Sextets {
    a: u8,
    b: u8,
    c: u8,
    d: u8,
}

// Of which each rule of a first unit says what it says of the unit.
fn unit(values: &[u8; 256], s: &[u8], at: usize) -> Sextets
    requires { at < length s.now / 4 }
    ensures { (f : ℕ → ℕ → ℕ → ℕ → ℕ) → f result.a result.b result.c result.d ≡ unit_by f (sextets_by values.now s.now) at }
{
    let i = 4 * at;
    Sextets {
        a: alphabet::value(values, s[i]),
        b: alphabet::value(values, s[i + 1]),
        c: alphabet::value(values, s[i + 2]),
        d: alphabet::value(values, s[i + 3]),
    }
}

// The size in units of the item whose header is the unit at a position, or 0.
pub fn sized_text(values: &[u8; 256], rows: &[u16; 192], s: &[u8], at: usize) -> usize
    ensures { result ≡ sized_at rows.now (sextets_by values.now s.now) at }
{
    if s.len() / 4 <= at {
        return 0;
    }
    let u = unit(values, s, at);
    runs::sized(rows, u.a, u.b, u.c, u.d)
}

// The same of a plain primitive.
pub fn plain_text(values: &[u8; 256], rows: &[u16; 192], s: &[u8], at: usize) -> usize
    ensures { result ≡ plain_at rows.now (sextets_by values.now s.now) at }
{
    if s.len() / 4 <= at {
        return 0;
    }
    let u = unit(values, s, at);
    runs::plain(rows, u.a, u.b, u.c, u.d)
}

// The unit at a position as a number; 0 past the end.
fn number_text(values: &[u8; 256], s: &[u8], at: usize) -> usize
    ensures { result ≡ number_at (sextets_by values.now s.now) at }
{
    if s.len() / 4 <= at {
        return 0;
    }
    let u = unit(values, s, at);
    runs_value::number(u.a, u.b, u.c, u.d)
}

// The size of a small variable value, by its header and the unit behind it, or 0.
pub fn valued_text(values: &[u8; 256], s: &[u8], at: usize) -> usize
    ensures { result ≡ valued_at (sextets_by values.now s.now) at }
{
    if s.len() / 4 <= at {
        return 0;
    }
    if runs_value::is_selector(alphabet::value(values, s[4 * at])) {
        let v = number_text(values, s, at + 1);
        let u = unit(values, s, at);
        return runs_value::valued(v, u.a, u.b, u.c, u.d);
    }
    0
}

// The size of an indexed item, by its header, or 0.
pub fn indexed_text(values: &[u8; 256], s: &[u8], at: usize) -> usize
    ensures { result ≡ indexed_at (sextets_by values.now s.now) at }
{
    if s.len() / 4 <= at {
        return 0;
    }
    let u = unit(values, s, at);
    runs_indexed::indexed(u.a, u.b, u.c, u.d)
}
