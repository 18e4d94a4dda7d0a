// Whether a stream passed, read off its report's bytes alone: every item accepted, one at least, no refusal and no remainder.
#![tactic(auto)]

ghost use Rattle.std.specs.Prelude.{◌≡◌, ◌+◌, ◌*◌, ◌≤◌, length, drop};
ghost use Rattle.expectation.specs.Expectation.{column};
ghost use Rattle.passing.specs.Passing.{are_accepted, passed_of, passed_in};

// 0, and whether it passed; or 20, and then it did not.
#[derive(Clone, Copy)]
pub struct Outcome {
    pub number: u8,
    pub passed: bool,
}

// Are the first n verdicts 0?
fn are_accepted(report: &[u8], n: usize) -> bool
    requires { 4 + 9 * n ≤ length report.now }
    ensures { result ≡ are_accepted (column 9 8 n (drop 4 report.now)) }
{
    for i in 0..n {
        if report[12 + 9 * i] != 0 {
            return false;
        }
    }
    true
}

// Of a report with so many items and no remainder. With no refusal it has 12 bytes beside the items' rows.
fn is_passed(report: &[u8], n: usize) -> bool
    requires { 4 + 9 * n ≤ length report.now }
    ensures { result ≡ passed_of (length report.now) (column 9 8 n (drop 4 report.now)) }
{
    if n == 0 {
        return false;
    }
    if report.len() - 9 * n != 12 {
        return false;
    }
    are_accepted(report, n)
}

// Whether a stream passed, by its report.
pub fn passed(report: &[u8]) -> Outcome
    ensures { result ≡ passed_in report.now }
{
    let Some(verdicts) = expectation::of_report(report) else {
        return Outcome {
            number: 20,
            passed: false,
        };
    };
    if verdicts.remainder.is_some() {
        return Outcome {
            number: 0,
            passed: false,
        };
    }
    let passed = is_passed(report, verdicts.items);
    Outcome { number: 0, passed }
}
