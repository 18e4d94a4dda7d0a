// Three bytes as four characters by a table of pairs that is lent, two characters at a look-up. Of another table nothing is said.
#![tactic(auto)]

ghost use Rattle.std.specs.Prelude.{◌≡◌, ◌/◌, ◌<◌};
ghost use Rattle.base.specs.Digits.{number_of};
ghost use Rattle.format.specs.Units.{quadlet_of};
ghost use Rattle.convert_pairs.specs.Pairs.{CharacterPairs};

// The second character of a pair.
fn high(x: u16) -> u8
    ensures { result ≡ x / 256 }
{
    (x / 256) as u8
}

fn number(t: [u8; 3]) -> u64
    ensures { (result ≡ number_of 256 t) × (result < 16777216) }
{
    (u64::from(t[0]) * 256 + u64::from(t[1])) * 256 + u64::from(t[2])
}

pub fn quadlet(table: &[u16; 4096], t: [u8; 3]) -> [u8; 4]
    ensures { CharacterPairs table.now → result ≡ quadlet_of t }
{
    let n = number(t);
    let p = table[(n / 4096) as usize];
    let q = table[(n % 4096) as usize];
    [(p % 256) as u8, high(p), (q % 256) as u8, high(q)]
}
