// The first three units of a part of a stream, as sextets that are read from either form: 0 past the end. No header reaches further,
// and no check of a header looks further.
#![tactic(auto)]

ghost use Rattle.std.specs.Prelude.{◌≡◌, ◌++◌, get_or, take, ◌+◌, ◌*◌, ◌<◌, ◌≤◌};
ghost use Rattle.format.specs.Alphabet.{sextet_table};
ghost use Rattle.format.specs.Units.{text_sextets, binary_sextets};
ghost use Rattle.framing_head.specs.Heads.{unit_of, head_of};

fn join(a: [u8; 4], b: [u8; 4], c: [u8; 4]) -> [u8; 12]
    ensures { result ≡ a ++ (b ++ c) }
{
    [
        a[0], a[1], a[2], a[3], b[0], b[1], b[2], b[3], c[0], c[1], c[2], c[3],
    ]
}

// ---- of a text

fn text_sextet(values: &[u8; 256], s: &[u8], i: usize) -> u8
    requires { values.now ≡ sextet_table }
    ensures { result ≡ get_or (text_sextets s.now) i 0 }
{
    if i < s.len() {
        values[usize::from(s[i])]
    } else {
        0
    }
}

fn text_unit(values: &[u8; 256], s: &[u8], at: usize) -> [u8; 4]
    requires { (values.now ≡ sextet_table) × (at ≤ 8) }
    ensures { result ≡ unit_of (text_sextets s.now) at }
{
    [
        text_sextet(values, s, at),
        text_sextet(values, s, at + 1),
        text_sextet(values, s, at + 2),
        text_sextet(values, s, at + 3),
    ]
}

// The sextets of a text's first three units, 64 for a character outside the alphabet.
pub fn text_head(s: &[u8]) -> [u8; 12]
    ensures { result ≡ head_of (text_sextets s.now) }
{
    let values = alphabet::sextets();
    let a = text_unit(&values, s, 0);
    let b = text_unit(&values, s, 4);
    let c = text_unit(&values, s, 8);
    join(a, b, c)
}

// ---- of a binary

fn binary_unit(s: &[u8], k: usize) -> [u8; 4]
    requires { k ≤ 2 }
    ensures { result ≡ unit_of (binary_sextets s.now) (4 * k) }
{
    let at = 3 * k;
    if at + 3 <= s.len() {
        units::unpack([s[at], s[at + 1], s[at + 2]])
    } else {
        [0, 0, 0, 0]
    }
}

// The sextets of a binary's first three whole units.
pub fn binary_head(s: &[u8]) -> [u8; 12]
    ensures { result ≡ head_of (binary_sextets s.now) }
{
    let a = binary_unit(s, 0);
    let b = binary_unit(s, 1);
    let c = binary_unit(s, 2);
    join(a, b, c)
}

// ---- of an item

fn within_unit(cs: [u8; 12], n: usize, at: usize) -> [u8; 4]
    requires { at ≤ 8 }
    ensures { result ≡ unit_of (take (4 * n) cs) at }
{
    [
        framing_within::within_sextet(cs, n, at),
        framing_within::within_sextet(cs, n, at + 1),
        framing_within::within_sextet(cs, n, at + 2),
        framing_within::within_sextet(cs, n, at + 3),
    ]
}

// The first sextets of a stream cut to an item of so many units: 0 past its end.
pub fn within(cs: [u8; 12], n: usize) -> [u8; 12]
    ensures { result ≡ head_of (take (4 * n) cs) }
{
    let a = within_unit(cs, n, 0);
    let b = within_unit(cs, n, 4);
    let c = within_unit(cs, n, 8);
    join(a, b, c)
}
