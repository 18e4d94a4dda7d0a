// What a first unit opens by the indexed table. The items of `-K` and `-L` have its codes.
#![tactic(auto)]

ghost use Rattle.std.specs.Prelude.{◌≡◌, get_or};
ghost use Rattle.format.specs.Registry.{indexed_opening};

use format::Opening;

// What the first unit, as four sextets, says where indexed items stand: a code with its size, or nothing known.
pub fn opening(u: [u8; 4]) -> Opening
    ensures { result ≡ indexed_opening (get_or u 0 0) (get_or u 1 0) (get_or u 2 0) (get_or u 3 0) }
{
    let a = u[0];
    if a < 52 {
        return registry_indexed_table::indexed(0, a);
    }
    registry_indexed_table::indexed(a, u[1])
}
