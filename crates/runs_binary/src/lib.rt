// What the first unit at a position of a binary decides, sextet by sextet or byte by byte: sizes, plain primitives, small groups and
// which table frames their items, and which of them stand one in the other; where indexed items stand, these; and what it decides with
// the unit behind it: small variable values.
#![tactic(auto)]

ghost use Rattle.std.specs.Prelude.{◌≡◌, ℕ, ◌+◌, ◌*◌, ◌/◌, ◌%◌, ◌<◌, length};
ghost use Rattle.format.specs.Units.{binary_sextets};
ghost use Rattle.runs.specs.Plain.{sized_at, plain_at, small_at, group_at, signed_at, marks_at, nested_at, unit_by};
ghost use Rattle.runs_value.specs.Values.{number_at, valued_at};
ghost use Rattle.runs_indexed.specs.Indexed.{indexed_at};
ghost use Rattle.runs_binary.specs.Bytes.{UnitBytes};

// The second sextet of a unit, and the third.
fn second(x: u8, y: u8) -> u8
    ensures { result ≡ x % 4 * 16 + y / 16 }
{
    x % 4 * 16 + y / 16
}

fn third(y: u8, z: u8) -> u8
    ensures { result ≡ y % 16 * 4 + z / 64 }
{
    y % 16 * 4 + z / 64
}

// The four sextets of the unit at a position.
#[derive(Clone, Copy)]
struct Sextets {
    a: u8,
    b: u8,
    c: u8,
    d: u8,
}

// Of which each rule of a first unit says what it says of the unit.
fn unit(s: &[u8], at: usize) -> Sextets
    requires { at < length s.now / 3 }
    ensures { (f : ℕ → ℕ → ℕ → ℕ → ℕ) → f result.a result.b result.c result.d ≡ unit_by f (binary_sextets s.now) at }
{
    let i = 3 * at;
    let x = s[i];
    let y = s[i + 1];
    let z = s[i + 2];
    Sextets {
        a: x / 4,
        b: second(x, y),
        c: third(y, z),
        d: z % 64,
    }
}

// The size in units of the item whose header is the unit at a position, or 0.
pub fn sized_binary(rows: &[u16; 192], s: &[u8], at: usize) -> usize
    ensures { result ≡ sized_at rows.now (binary_sextets s.now) at }
{
    if s.len() / 3 <= at {
        return 0;
    }
    let u = unit(s, at);
    runs::sized(rows, u.a, u.b, u.c, u.d)
}

// The same of a plain primitive.
pub fn plain_binary(rows: &[u16; 192], s: &[u8], at: usize) -> usize
    ensures { result ≡ plain_at rows.now (binary_sextets s.now) at }
{
    if s.len() / 3 <= at {
        return 0;
    }
    let u = unit(s, at);
    runs::plain(rows, u.a, u.b, u.c, u.d)
}

// The size of an indexed item, by its header, or 0.
pub fn indexed_binary(s: &[u8], at: usize) -> usize
    ensures { result ≡ indexed_at (binary_sextets s.now) at }
{
    if s.len() / 3 <= at {
        return 0;
    }
    let u = unit(s, at);
    runs_indexed::indexed(u.a, u.b, u.c, u.d)
}

// The three bytes of the unit at a position.
#[derive(Clone, Copy)]
struct Triplet {
    x: usize,
    y: usize,
    z: usize,
}

fn bytes(s: &[u8], at: usize) -> Triplet
    requires { at < length s.now / 3 }
    ensures { UnitBytes s.now at result.x result.y result.z }
{
    let i = 3 * at;
    Triplet {
        x: usize::from(s[i]),
        y: usize::from(s[i + 1]),
        z: usize::from(s[i + 2]),
    }
}

// The unit at a position as a number, byte by byte; 0 past the end.
fn number_binary(s: &[u8], at: usize) -> usize
    ensures { result ≡ number_at (binary_sextets s.now) at }
{
    if s.len() / 3 <= at {
        return 0;
    }
    let b = bytes(s, at);
    (b.x * 256 + b.y) * 256 + b.z
}

fn valued_in_binary(s: &[u8], at: usize) -> usize
    requires { at < length s.now / 3 }
    ensures { result ≡ valued_at (binary_sextets s.now) at }
{
    let v = number_binary(s, at + 1);
    let u = unit(s, at);
    runs_value::valued(v, u.a, u.b, u.c, u.d)
}

// The size of a small variable value, by its header and the unit behind it, or 0.
pub fn valued_binary(s: &[u8], at: usize) -> usize
    ensures { result ≡ valued_at (binary_sextets s.now) at }
{
    if s.len() / 3 <= at {
        return 0;
    }
    if runs_value::is_selector(s[3 * at] / 4) {
        valued_in_binary(s, at)
    } else {
        0
    }
}

// The count byte by byte, which saves steps.
fn small_in_binary(s: &[u8], at: usize) -> usize
    requires { at < length s.now / 3 }
    ensures { result ≡ small_at (binary_sextets s.now) at }
{
    let b = bytes(s, at);
    if runs_open::is_small(b.x / 4, b.x % 4 * 16 + b.y / 16) {
        1 + (b.y % 16 * 256 + b.z)
    } else {
        0
    }
}

// The same of a group whose items the master table frames.
fn group_in_binary(s: &[u8], at: usize) -> usize
    requires { at < length s.now / 3 }
    ensures { result ≡ group_at (binary_sextets s.now) at }
{
    let b = bytes(s, at);
    if runs_open::is_open(b.x / 4, b.x % 4 * 16 + b.y / 16) {
        1 + (b.y % 16 * 256 + b.z)
    } else {
        0
    }
}

// The size in units of the small group at a unit, whichever table frames its items, or 0.
pub fn small_binary(s: &[u8], at: usize) -> usize
    ensures { result ≡ small_at (binary_sextets s.now) at }
{
    if s.len() / 3 <= at {
        return 0;
    }
    small_in_binary(s, at)
}

// Whether the indexed table frames the items of the small group at a unit.
pub fn signed_binary(s: &[u8], at: usize) -> bool
    ensures { result ≡ signed_at (binary_sextets s.now) at }
{
    if s.len() / 3 <= at {
        return false;
    }
    runs_open::is_signed(usize::from(unit(s, at).b))
}

// Whether 7 is asked of its first item.
pub fn marks_binary(s: &[u8], at: usize) -> bool
    ensures { result ≡ marks_at (binary_sextets s.now) at }
{
    if s.len() / 3 <= at {
        return false;
    }
    unit(s, at).b < 3
}

// How many small groups whose items the master table frames, of so many at most, stand one in the other from a unit on, each all that is
// left up to another unit.
pub fn nested_binary(s: &[u8], at: usize, stop: usize, most: usize) -> usize
    ensures { result ≡ nested_at (group_at (binary_sextets s.now)) (length s.now / 3) stop most at }
{
    if s.len() / 3 < stop {
        return 0;
    }
    let all = stop.saturating_sub(at);
    let limit = all.min(most);
    for n in 0..limit {
        if group_in_binary(s, at + n) != all - n {
            return n;
        }
    }
    limit
}
