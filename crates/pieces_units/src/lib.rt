// What is held and a piece behind it (02 f), of either form: its units as four sextets, and the elements behind the last whole one.
#![tactic(auto)]

ghost use Rattle.std.specs.Prelude.{◌≡◌, ◌++◌, ◌+◌, ◌*◌, ◌%◌, ◌≤◌, length, get_or, take, drop};
ghost use Rattle.format.specs.Units.{text, binary, domain};
ghost use Rattle.pieces_units.specs.Rests.{rest_of};

use format::Form;

// An element of what is held, so many, and the piece.
fn element(held: [u8; 4], count: usize, piece: &[u8], i: usize) -> u8
    requires { (count ≤ 4) × (i + 1 ≤ count + length piece.now) }
    ensures { result ≡ get_or (take count held ++ piece.now) i 0 }
{
    if i < count {
        return held[i];
    }
    piece[i - count]
}

fn text_unit(held: [u8; 4], count: usize, piece: &[u8], at: usize) -> [u8; 4]
    requires { (count ≤ 4) × (at + 4 ≤ count + length piece.now) }
    ensures { result ≡ text.sextets (take 4 (drop at (take count held ++ piece.now))) }
{
    let a = element(held, count, piece, at);
    let b = element(held, count, piece, at + 1);
    let c = element(held, count, piece, at + 2);
    let d = element(held, count, piece, at + 3);
    [
        alphabet::sextet(a),
        alphabet::sextet(b),
        alphabet::sextet(c),
        alphabet::sextet(d),
    ]
}

fn binary_unit(held: [u8; 4], count: usize, piece: &[u8], at: usize) -> [u8; 4]
    requires { (count ≤ 4) × (at + 3 ≤ count + length piece.now) }
    ensures { result ≡ binary.sextets (take 3 (drop at (take count held ++ piece.now))) }
{
    let a = element(held, count, piece, at);
    let b = element(held, count, piece, at + 1);
    let c = element(held, count, piece, at + 2);
    units::unpack([a, b, c])
}

// Unit k of what is held and the piece; 0 where there is none.
pub fn unit_at(form: Form, held: [u8; 4], count: usize, piece: &[u8], k: usize) -> [u8; 4]
    ensures { count ≤ 4 → (k + 1) * (domain form).unit ≤ count + length piece.now → result ≡ take 4 (drop (4 * k) ((domain form).sextets (take count held ++ piece.now))) }
{
    if 4 < count {
        return [0; 4];
    }
    match form {
        Form::Text => {
            if (count + piece.len()) / 4 <= k {
                return [0; 4];
            }
            text_unit(held, count, piece, 4 * k)
        }
        Form::Binary => {
            if (count + piece.len()) / 3 <= k {
                return [0; 4];
            }
            binary_unit(held, count, piece, 3 * k)
        }
    }
}

// ---- behind the last whole unit

// Elements of so many there.
pub fn left(form: Form, n: usize) -> usize
    ensures { result ≡ n % (domain form).unit }
{
    match form {
        Form::Text => n % 4,
        Form::Binary => n % 3,
    }
}

// One of them, 0 behind them.
fn left_at(held: [u8; 4], count: usize, piece: &[u8], from: usize, i: usize) -> u8
    requires { (count ≤ 4) × (from ≤ count + length piece.now) × (i ≤ 3) }
    ensures { result ≡ get_or (drop from (take count held ++ piece.now)) i 0 }
{
    if count + piece.len() <= from + i {
        return 0;
    }
    element(held, count, piece, from + i)
}

// All of them, 0 behind them.
pub fn rest(form: Form, held: [u8; 4], count: usize, piece: &[u8]) -> [u8; 4]
    ensures { count ≤ 4 → result ≡ rest_of (domain form) (take count held ++ piece.now) }
{
    if 4 < count {
        return [0; 4];
    }
    let n = count + piece.len();
    let from = n - left(form, n);
    [
        left_at(held, count, piece, from, 0),
        left_at(held, count, piece, from, 1),
        left_at(held, count, piece, from, 2),
        left_at(held, count, piece, from, 3),
    ]
}
