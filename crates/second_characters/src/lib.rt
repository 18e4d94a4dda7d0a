// The characters of a text, as the second judge reads them (02 m), to be read by eye: a place's sextet, the first one that is not below a limit, 5
// or 19, and the characters of a genus/version. It shares with the first engine the alphabet's table; no more. `&` asks both sides.
#![tactic(auto)]

ghost use Rattle.std.specs.Prelude.{◌≡◌};
ghost use Rattle.format.specs.Units.{text_sextets};
ghost use Rattle.format.specs.Framing.{sextet, is_ours};
ghost use Rattle.second_characters.specs.Found.{First, Bad, Known8};

use alphabet::sextet;
use alphabet_numbers::stranger_number;
use format::Verdict;

// A place's sextet; 0 past the end.
pub fn at(t: &[u8], i: usize) -> u8
    ensures { result ≡ sextet (text_sextets t.now) i }
{
    if i < t.len() { sextet(t[i]) } else { 0 }
}

// The first place from i on whose sextet is not below a limit; where there is none before `to`, the larger of the two.
pub fn first(t: &[u8], i: usize, to: usize, limit: u8) -> usize
    ensures { First (text_sextets t.now) i to limit result }
{
    (i..to).find(|k| at(t, *k) >= limit).unwrap_or(to.max(i))
}

// 5 or 19: the first bad character from one place to another.
pub fn strangers(t: &[u8], from: usize, to: usize) -> Verdict
    ensures { Bad (text_sextets t.now) from to result }
{
    let place = first(t, from, to, 64);
    if place < to {
        let number = stranger_number(at(t, place));
        return Verdict::Refused { number, place };
    }
    Verdict::Accepted
}

// Whether a genus/version is `AAACAA`.
pub fn is_ours(t: &[u8]) -> bool
    ensures { Known8 (text_sextets t.now) → result ≡ is_ours (sextet (text_sextets t.now)) }
{
    (first(t, 2, 5, 1) == 5) & (at(t, 5) == 2) & (first(t, 6, 8, 1) == 8)
}
