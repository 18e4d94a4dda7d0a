// What a header's first unit says by the master table: the code that it opens, or what a second unit completes.
#![tactic(auto)]

ghost use Rattle.std.specs.Prelude.{◌≡◌, get_or};
ghost use Rattle.format.specs.Registry.{opening};
ghost use Rattle.registry_master.specs.Parts.{pad0_opening};

use format::Opening;

// Selector `1`, whose codes have three characters behind it, the first two of them `A`.
fn pad0(b: u8, c: u8, d: u8) -> Opening
    ensures { result ≡ pad0_opening b c d }
{
    if b == 0 {
        if c == 0 {
            return registry_table::fixed(4, d);
        }
    }
    Opening::Unknown
}

// What the first unit, as four sextets, says by the master table: a code with its size, what a second unit completes, or nothing known.
pub fn opening(u: [u8; 4]) -> Opening
    ensures { result ≡ opening (get_or u 0 0) (get_or u 1 0) (get_or u 2 0) (get_or u 3 0) }
{
    let a = u[0];
    let b = u[1];
    let c = u[2];
    let d = u[3];
    if a < 52 {
        return registry_table::fixed(1, a);
    }
    if a == 52 {
        return registry_table::fixed(2, b);
    }
    if a == 53 {
        return pad0(b, c, d);
    }
    if a < 56 {
        return Opening::Unknown;
    }
    if a < 59 {
        return registry_variable::small_variable(a - 56, b, c, d);
    }
    if a < 62 {
        return registry_variable::large_variable(a - 59, b, c, d);
    }
    if a == 62 {
        return registry_group::group(b, c, d);
    }
    Opening::Unknown
}
