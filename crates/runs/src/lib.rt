// What a first unit alone decides, as four sextets: the size of a primitive of a fixed code or of a small group, and whether the
// primitive is accepted if its characters are known. Nothing here asks whether a character is known: the callers do, once for many
// items. The tables are lent, since naming a constant copies it.
#![tactic(auto)]

ghost use Rattle.std.specs.Prelude.{◌≡◌, ◌+◌, ◌-◌, ◌*◌, ◌<◌};
ghost use Rattle.runs.specs.Plain.{row_of, row_aa, typed, not_text, lettered, limited, sized_of, plain_of};

// The rows of the three lists, by the sextet that tells the code in each; 0 past the list.
#[tactic(auto, unfolding(crate::specs::Plain::row_of))]
fn row_of(rows: &[u16; 192], list: usize, x: u8) -> usize
    requires { list < 3 }
    ensures { (result ≡ row_of rows.now list x) × (result < 65536) }
{
    if x < 64 {
        return usize::from(rows[64 * list + usize::from(x)]);
    }
    0
}

// The row of a one-letter code.
pub fn letter_row(rows: &[u16; 192], x: u8) -> usize
    ensures { (result ≡ row_of rows.now 0 x) × (result < 65536) }
{
    row_of(rows, 0, x)
}

// The row of `1AA` and a letter, by what is behind the `1`.
#[tactic(auto, unfolding(crate::specs::Plain::row_aa))]
fn row_aa(rows: &[u16; 192], b: u8, c: u8, d: u8) -> usize
    ensures { (result ≡ row_aa rows.now b c d) × (result < 65536) }
{
    if b == 0 {
        if c == 0 {
            return row_of(rows, 2, d);
        }
    }
    0
}

// One unit, and as many as two digits say.
pub fn counted(c: u8, d: u8) -> usize
    ensures { result ≡ 1 + (c * 64 + d) }
{
    1 + (usize::from(c) * 64 + usize::from(d))
}

// A small variable value, by what is behind the selector.
#[tactic(auto, unfolding(crate::specs::Plain::typed, format::specs::Registry::is_type))]
pub fn typed(b: u8, c: u8, d: u8) -> usize
    ensures { result ≡ typed b c d }
{
    if b < 6 {
        return counted(c, d);
    }
    if b == 7 { counted(c, d) } else { 0 }
}

// And of another type than text.
#[tactic(auto, unfolding(crate::specs::Plain::not_text, format::specs::Registry::is_text))]
fn not_text(b: u8, c: u8, d: u8) -> usize
    ensures { result ≡ not_text b c d }
{
    if b == 0 { 0 } else { typed(b, c, d) }
}

// A small group, by what is behind the `-`.
#[tactic(auto, unfolding(crate::specs::Plain::lettered, format::specs::Registry::is_group))]
fn lettered(b: u8, c: u8, d: u8) -> usize
    ensures { result ≡ lettered b c d }
{
    if b < 29 { counted(c, d) } else { 0 }
}

// The size in units of an item whose header is the unit, or 0.
#[tactic(auto, unfolding(crate::specs::Plain::sized_of))]
pub fn sized(rows: &[u16; 192], a: u8, b: u8, c: u8, d: u8) -> usize
    ensures { result ≡ sized_of rows.now a b c d }
{
    if a < 52 {
        return row_of(rows, 0, a) % 64;
    }
    if a == 52 {
        return row_of(rows, 1, b) % 64;
    }
    if a == 53 {
        return row_aa(rows, b, c, d) % 64;
    }
    if a < 56 {
        return 0;
    }
    if a < 59 {
        return typed(b, c, d);
    }
    if a == 62 { lettered(b, c, d) } else { 0 }
}

#[tactic(auto, unfolding(crate::specs::Plain::limited))]
fn limited(row: usize, x: u8) -> usize
    ensures { result ≡ limited row x }
{
    if usize::from(x) < row / 64 {
        row % 64
    } else {
        0
    }
}

// The same of a plain primitive.
#[tactic(auto, unfolding(crate::specs::Plain::plain_of))]
pub fn plain(rows: &[u16; 192], a: u8, b: u8, c: u8, d: u8) -> usize
    ensures { result ≡ plain_of rows.now a b c d }
{
    if a < 52 {
        return limited(row_of(rows, 0, a), b);
    }
    if a == 52 {
        return limited(row_of(rows, 1, b), c);
    }
    if a == 53 {
        return limited(row_aa(rows, b, c, d), 63);
    }
    if a == 56 { not_text(b, c, d) } else { 0 }
}
