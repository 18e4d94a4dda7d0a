// A group's header in either form, as the first of eight bytes, with zeros behind it. The letter is a sextet.
#![tactic(auto)]

ghost use Rattle.std.specs.Prelude.{◌≡◌, map};
ghost use Rattle.format.specs.Alphabet.{char_of};
ghost use Rattle.format.specs.declared.Form.TheVariants.{Text, Binary};
ghost use Rattle.groups.specs.Grouping.{head_units};
ghost use Rattle.groups_header.specs.Header.{first_unit, second_unit, head_bytes};

use format::Form;

const SMALL: usize = 4095;

// The units of the header of a group of n.
pub fn head_units(n: usize) -> usize
    ensures { result ≡ head_units n }
{
    if n <= SMALL { 1 } else { 2 }
}

// ---- the sextets

// `-`, letter and two digits, or `--`, letter and the first of five.
fn first_unit(letter: u8, n: usize) -> [u8; 4]
    ensures { result ≡ first_unit letter n }
{
    if n <= SMALL {
        return [62, letter, (n / 64 % 64) as u8, (n % 64) as u8];
    }
    [62, 62, letter, (n / 16777216 % 64) as u8]
}

// The last four digits of five.
fn second_unit(n: usize) -> [u8; 4]
    ensures { result ≡ second_unit n }
{
    [
        (n / 262144 % 64) as u8,
        (n / 4096 % 64) as u8,
        (n / 64 % 64) as u8,
        (n % 64) as u8,
    ]
}

// ---- in text, in binary

fn characters(u: [u8; 4]) -> [u8; 4]
    ensures { result ≡ map char_of u }
{
    [
        alphabet::character(u[0]),
        alphabet::character(u[1]),
        alphabet::character(u[2]),
        alphabet::character(u[3]),
    ]
}

fn text_header(letter: u8, n: usize) -> [u8; 8]
    ensures { result ≡ head_bytes Text letter n }
{
    let a = characters(first_unit(letter, n));
    if n <= SMALL {
        return [a[0], a[1], a[2], a[3], 0, 0, 0, 0];
    }
    let b = characters(second_unit(n));
    [a[0], a[1], a[2], a[3], b[0], b[1], b[2], b[3]]
}

fn binary_header(letter: u8, n: usize) -> [u8; 8]
    ensures { result ≡ head_bytes Binary letter n }
{
    let a = units::pack(first_unit(letter, n));
    if n <= SMALL {
        return [a[0], a[1], a[2], 0, 0, 0, 0, 0];
    }
    let b = units::pack(second_unit(n));
    [a[0], a[1], a[2], b[0], b[1], b[2], 0, 0]
}

pub fn header(form: Form, letter: u8, n: usize) -> [u8; 8]
    ensures { result ≡ head_bytes form letter n }
{
    match form {
        Form::Text => text_header(letter, n),
        Form::Binary => binary_header(letter, n),
    }
}
