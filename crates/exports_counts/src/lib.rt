// A comparison and a pass as C is told them: the number, 0 for accepted, and the counts, or 1 for a pass. Nothing is decided here.
#![tactic(auto)]

ghost use Rattle.std.specs.Prelude.{◌≡◌};
ghost use Rattle.base.specs.Pick.{pick};
ghost use Rattle.exports_values.specs.Counts.{counts_of};

use comparison::Compared;
use passing::Outcome;

#[tactic(auto, unfolding(exports_values::specs::Counts::counts_of))]
fn counts_of(c: Compared) -> [usize; 5]
    ensures { result ≡ counts_of c }
{
    let agree = exports_values::mark_of(c.agree);
    [c.passed, c.failed, c.unreached, c.beyond, agree]
}

// answer: passed, failed, not reached, beyond, and 1 where the remainders agree.
pub fn compared(found: Compared, answer: &mut [usize; 5]) -> u8
    ensures value { result ≡ found.number }
    ensures answer_after { answer.new ≡ counts_of found }
{
    let counts = counts_of(found);
    *answer = counts;
    found.number
}

// passed: 1 or 0.
pub fn passed(outcome: Outcome, passed: &mut usize) -> u8
    ensures value { result ≡ outcome.number }
    ensures passed_after { passed.new ≡ pick outcome.passed 1 0 }
{
    *passed = exports_values::mark_of(outcome.passed);
    outcome.number
}
