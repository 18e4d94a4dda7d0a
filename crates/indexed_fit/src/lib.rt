// Whether index, ondex and raw value fit an indexed code, 12, and whether it takes an ondex, 15.
#![tactic(auto)]

ghost use Rattle.std.specs.Prelude.{◌≡◌, ◌<◌, ◌≤◌, ◌/◌, ◌^◌};
ghost use Rattle.format.specs.Judging.{ondex_right};
ghost use Rattle.format.specs.Indexed.{indexed_raw_size, fits_indexed};
ghost use Rattle.indexed_fit.specs.Digits.{Few};

use format::IndexRow;

// The full size in units.
pub fn units_of(c: IndexRow) -> usize
    ensures { (result ≡ c.size / 4) × (result < 64) }
{
    usize::from(c.size) / 4
}

fn raw_size(c: IndexRow) -> usize
    ensures { result ≡ indexed_raw_size c }
{
    let start = reading_start::indexed_start(c).0;
    let full = units_of(c) * 3;
    full.saturating_sub(start)
}

// What so many digits do not reach: 1 without digits, which leaves 0 alone. Of more than three nothing is said.
fn limit(digits: u8) -> usize
    ensures { digits ≤ 3 → result ≡ 64 ^ digits }
{
    if digits == 0 {
        return 1;
    }
    if digits == 1 {
        return 64;
    }
    if digits == 2 { 4096 } else { 262144 }
}

// 12: by the raw value, the index and the ondex.
pub fn is_fit(c: IndexRow, index: usize, ondex: usize, raw: usize) -> bool
    ensures { Few c → result ≡ fits_indexed c index ondex raw }
{
    if raw != raw_size(c) {
        return false;
    }
    if limit(c.index) <= index {
        return false;
    }
    ondex < limit(c.ondex)
}

// 15: a "current only" code has no ondex.
pub fn ondex_right(c: IndexRow, ondex: usize) -> bool
    ensures { result ≡ ondex_right c ondex }
{
    if c.current == 0 {
        return true;
    }
    ondex == 0
}
