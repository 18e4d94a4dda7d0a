// An item's size by what its first unit opens and by the number that its second unit stands for.
#![tactic(auto)]

ghost use Rattle.std.specs.Prelude.{◌≡◌, ◌+◌, ◌*◌, ◌<◌, get_or};
ghost use Rattle.format.specs.Registry.{extent};

use format::Opening;

// The number that the second unit's four sextets stand for.
pub fn number(u: [u8; 4]) -> usize
    ensures { (result ≡ ((get_or u 0 0 * 64 + get_or u 1 0) * 64 + get_or u 2 0) * 64 + get_or u 3 0) × (result < 100000000) }
{
    ((usize::from(u[0]) * 64 + usize::from(u[1])) * 64 + usize::from(u[2])) * 64 + usize::from(u[3])
}

// The item's full size in units, the second unit's sextets given. A size is computed in 64 bits and cannot wrap.
#[tactic(auto, unfolding(format::specs::Registry::extent))]
pub fn extent(op: Opening, second: [u8; 4]) -> usize
    ensures { result ≡ extent op (((get_or second 0 0 * 64 + get_or second 1 0) * 64 + get_or second 2 0) * 64 + get_or second 3 0) }
{
    match op {
        Opening::Unknown => 0,
        Opening::Short { kind: _, size } => size,
        Opening::Long { kind: _, size } => size,
        Opening::LargeVariable { letter: _, lead: _ } => 2 + number(second),
        Opening::LargeGroup { letter: _, digit } => {
            2 + (usize::from(digit) * 16777216 + number(second))
        }
        Opening::Version => 2,
    }
}
