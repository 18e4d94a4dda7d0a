// The tables by which long streams are converted, two characters a look-up. A table is built in each call, which some thousand units
// make good: a constant one would be copied.
#![tactic(auto)]

ghost use Rattle.std.specs.Prelude.{◌≡◌, ◌+◌, ◌*◌, ◌≤◌, ◌<◌, length, get_or};
ghost use Rattle.convert_pairs.specs.Rows.{RowPut};
ghost use Rattle.convert_pairs.specs.Pairs.{SextetPairs, CharacterPairs};

// ---- two characters to twelve bits

fn twelve(high: u8, low: u16) -> u16
    requires { low < 256 }
    ensures { result ≡ high * 64 + low }
{
    u16::from(high) * 64 + low
}

// The pairs whose second character has the value `low`; the first is one of the 78 characters from `-`, 45, to `z`.
fn put_row(table: &mut [u16; 19790], values: &[u8; 256], at: usize, low: u16)
    requires { (length table.old ≡ 19790) × (at + 78 ≤ 19790) × (low < 256) }
    ensures { RowPut 19790 at 78 (λ i. get_or values.now (i + 45) 0 * 64 + low) table.old table.new }
{
    for i in 0..78 {
        table[at + i] = twelve(values[i + 45], low);
    }
}

// Rows begin every 256: the place of two characters is the number that they are, less 11565, which is `--`.
pub fn sextet_pairs() -> [u16; 19790]
    ensures { SextetPairs result }
{
    let values = alphabet::sextets();
    let mut table = [0u16; 19790];
    for j in 0..78 {
        let low = u16::from(values[j + 45]);
        put_row(&mut table, &values, 256 * j, low);
    }
    table
}

// ---- twelve bits to two characters

// The first is the low byte.
fn pair(first: u16, second: u8) -> u16
    requires { first < 256 }
    ensures { result ≡ first + second * 256 }
{
    first + u16::from(second) * 256
}

// The pairs whose first character is `first`.
fn put_characters(table: &mut [u16; 4096], characters: &[u8; 64], at: usize, first: u16)
    requires { (length table.old ≡ 4096) × (at + 64 ≤ 4096) × (first < 256) }
    ensures { RowPut 4096 at 64 (λ j. first + get_or characters.now j 0 * 256) table.old table.new }
{
    for j in 0..64 {
        table[at + j] = pair(first, characters[j]);
    }
}

pub fn character_pairs() -> [u16; 4096]
    ensures { CharacterPairs result }
{
    let characters = alphabet::characters();
    let mut table = [0u16; 4096];
    for i in 0..64 {
        let first = u16::from(characters[i]);
        put_characters(&mut table, &characters, 64 * i, first);
    }
    table
}
