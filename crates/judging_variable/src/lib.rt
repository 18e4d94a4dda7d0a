// What the header and first sextets of a variable value decide: 18, 9, 8 and 16. The sextets are the item's own, 0 past its end.
#![tactic(auto)]

ghost use Rattle.std.specs.Prelude.{◌≡◌, ◌*◌};
ghost use Rattle.format.specs.Judging.{has_lead, zero_bits};
ghost use Rattle.judging_variable.specs.Checks.{variable_checks};

use format::Verdict;

fn has_lead(lead: u8, count: usize) -> bool
    ensures { result ≡ has_lead lead count }
{
    if 0 < lead { 0 < count } else { true }
}

fn lead_zero(cs: [u8; 12], h: usize, lead: u8) -> bool
    ensures { result ≡ zero_bits cs (4 * h) (8 * lead) }
{
    if h <= 2 {
        judging_bits::zero_bits(cs, 4 * h, 8 * u32::from(lead))
    } else {
        true
    }
}

pub fn variable_checks(letter: u8, lead: u8, count: usize, h: usize, cs: [u8; 12]) -> Verdict
    ensures { result ≡ variable_checks letter lead count h cs }
{
    if !judging_header::is_shortest(h, count) {
        return Verdict::Refused {
            number: 18,
            place: 0,
        };
    }
    if !has_lead(lead, count) {
        return Verdict::Refused {
            number: 9,
            place: 0,
        };
    }
    if !lead_zero(cs, h, lead) {
        return Verdict::Refused {
            number: 8,
            place: 0,
        };
    }
    if !judging_fill::text_filled(letter, lead, count, h, cs) {
        return Verdict::Refused {
            number: 16,
            place: 0,
        };
    }
    Verdict::Accepted
}
