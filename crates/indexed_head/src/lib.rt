// What stands before the raw value of an indexed item, as its first nine bytes: code, index, ondex and pad bits, and then zeros.
#![tactic(auto)]

ghost use Rattle.std.specs.Prelude.{◌≡◌, ◌<◌, ◌%◌};
ghost use Rattle.indexed_head.specs.Heads.{first_unit, second_unit, head_bytes};

use format::IndexRow;

// The last digit of an index or an ondex.
fn digit(n: usize) -> u8
    ensures { (result ≡ n % 64) × (result < 64) }
{
    (n % 64) as u8
}

// A letter has an index of one digit; a selector and a letter have index and ondex, of as many digits each.
fn first_unit(c: IndexRow, index: usize, ondex: usize) -> [u8; 4]
    ensures { result ≡ first_unit c index ondex }
{
    let s = c.selector;
    let l = c.letter;
    if c.chars == 1 {
        return [l, digit(index), 0, 0];
    }
    if c.index == 1 {
        return [s, l, digit(index), digit(ondex)];
    }
    if c.index == 2 {
        return [s, l, digit(index / 64), digit(index)];
    }
    [s, l, digit(index / 4096), digit(index / 64)]
}

// The last of three digits of an index, and an ondex of two or three.
fn second_unit(c: IndexRow, index: usize, ondex: usize) -> [u8; 4]
    ensures { result ≡ second_unit c index ondex }
{
    if c.index == 1 {
        return [0, 0, 0, 0];
    }
    if c.index == 2 {
        return [digit(ondex / 64), digit(ondex), 0, 0];
    }
    [
        digit(index),
        digit(ondex / 4096),
        digit(ondex / 64),
        digit(ondex),
    ]
}

pub fn head_bytes(c: IndexRow, index: usize, ondex: usize) -> [u8; 9]
    ensures { result ≡ head_bytes c index ondex }
{
    let a = units::pack(first_unit(c, index, ondex));
    let b = units::pack(second_unit(c, index, ondex));
    [a[0], a[1], a[2], b[0], b[1], b[2], 0, 0, 0]
}
