// A unit by value: four characters or three bytes, and the four sextets that both are. A function that reads a table is lent it,
// since naming a constant table copies it.
#![tactic(auto)]

ghost use Rattle.std.specs.Prelude.{◌≡◌, ◌<◌, get_or};
ghost use Rattle.format.specs.Units.{bytes_of, sextets_of, triplet_by, quadlet_by};

// Four sextets as three bytes.
#[tactic(auto, unfolding(format::specs::Units::bytes_of))]
pub fn pack(q: [u8; 4]) -> [u8; 3]
    ensures { result ≡ bytes_of q }
{
    let n = ((u32::from(q[0]) * 64 + u32::from(q[1])) * 64 + u32::from(q[2])) * 64
        + u32::from(q[3]);
    [
        (n / 65536 % 256) as u8,
        (n / 256 % 256) as u8,
        (n % 256) as u8,
    ]
}

// Three bytes as four sextets.
#[tactic(auto, unfolding(format::specs::Units::sextets_of))]
pub fn unpack(t: [u8; 3]) -> [u8; 4]
    ensures { result ≡ sextets_of t }
{
    let n = (u32::from(t[0]) * 256 + u32::from(t[1])) * 256 + u32::from(t[2]);
    [
        (n / 262144 % 64) as u8,
        (n / 4096 % 64) as u8,
        (n / 64 % 64) as u8,
        (n % 64) as u8,
    ]
}

// Four characters as three bytes, each character's value taken from the table.
#[tactic(auto, unfolding(format::specs::Units::triplet_by))]
pub fn triplet(values: &[u8; 256], q: [u8; 4]) -> [u8; 3]
    ensures { result ≡ triplet_by values.now q }
{
    pack([
        alphabet::value(values, q[0]),
        alphabet::value(values, q[1]),
        alphabet::value(values, q[2]),
        alphabet::value(values, q[3]),
    ])
}

fn character(characters: &[u8; 64], v: u8) -> u8
    requires { v < 64 }
    ensures { result ≡ get_or characters.now v 0 }
{
    characters[usize::from(v)]
}

// Three bytes as four characters, each sextet's character taken from the table.
#[tactic(auto, unfolding(format::specs::Units::quadlet_by, format::specs::Units::sextets_of))]
pub fn quadlet(characters: &[u8; 64], t: [u8; 3]) -> [u8; 4]
    ensures { result ≡ quadlet_by characters.now t }
{
    let q = unpack(t);
    [
        character(characters, q[0]),
        character(characters, q[1]),
        character(characters, q[2]),
        character(characters, q[3]),
    ]
}
