// Whether two sextets begin a small group, and which table frames its items. Every number is answered, also one that is no sextet.
#![tactic(auto)]

ghost use Rattle.std.specs.Prelude.{◌≡◌};
ghost use Rattle.format.specs.Registry.{is_indexed};
ghost use Rattle.runs.specs.Plain.{small_by, opens_by};

// A small group, by its first two sextets.
pub fn is_small(a: usize, b: usize) -> bool
    ensures { result ≡ small_by a b }
{
    if a != 62 {
        return false;
    }
    b < 29
}

// Whether the indexed table frames the items of a group with this letter.
pub fn is_signed(b: usize) -> bool
    ensures { result ≡ is_indexed b }
{
    if b == 11 {
        return true;
    }
    b == 10
}

// A group whose items the master table frames, by its first two sextets.
pub fn is_open(a: usize, b: usize) -> bool
    ensures { result ≡ opens_by a b }
{
    if a != 62 {
        return false;
    }
    if 28 < b {
        return false;
    }
    if b == 10 {
        return false;
    }
    b != 11
}
