// An expectation file compared with a report: verdicts counted, remainders on their own, and the call.
#![tactic(auto)]

ghost use Rattle.std.specs.Prelude.{◌≡◌, ◌+◌, ◌*◌, ◌≤◌, length, drop};
ghost use Rattle.expectation.specs.Expectation.{column};
ghost use Rattle.comparison.specs.Comparing.{agree, counted, refused, compared};
ghost use Rattle.comparison.specs.Words.{count};
ghost use Rattle.expectation.specs.Bytes.{number_if};
ghost use Rattle.comparison.specs.Passing.{alike};

// What a comparison answers: 0, or 20 and its place; of the verdicts expected those that passed, failed or were not reached; the items
// beyond them; and whether the remainders agree.
#[derive(Clone, Copy)]
pub struct Compared {
    pub number: u8,
    pub place: usize,
    pub passed: usize,
    pub failed: usize,
    pub unreached: usize,
    pub beyond: usize,
    pub agree: bool,
}

// How many of the first n verdicts are as expected.
fn passes(file: &[u8], report: &[u8], n: usize) -> usize
    requires { (4 + n ≤ length file.now) × (4 + 9 * n ≤ length report.now) }
    ensures { (result ≡ count (alike file.now report.now) n) × (result ≤ n) }
{
    let mut k: usize = 0;
    for i in 0..n {
        if file[4 + i] == report[12 + 9 * i] {
            k += 1;
        }
    }
    k
}

#[tactic(auto, using(crate::proofs::Laws::same_agree))]
fn agreed(wanted: Option<u8>, found: Option<u8>) -> bool
    ensures { result ≡ agree (number_if wanted) (number_if found) }
{
    wanted == found
}

// Verdicts compared: so many expected and so many reported, and whether the remainders agree.
fn counts(file: &[u8], report: &[u8], items: usize, there: usize, agree: bool) -> Compared
    requires { (4 + 1 * items ≤ length file.now) × (4 + 9 * there ≤ length report.now) }
    ensures { result ≡ counted (column 1 0 items (drop 4 file.now)) (column 9 8 there (drop 4 report.now)) agree }
{
    let both = items.min(there);
    let passed = passes(file, report, both);
    Compared {
        number: 0,
        place: 0,
        passed,
        failed: both - passed,
        unreached: items - both,
        beyond: there - both,
        agree,
    }
}

fn malformed() -> Compared
    ensures { result ≡ refused }
{
    Compared {
        number: 20,
        place: 0,
        passed: 0,
        failed: 0,
        unreached: 0,
        beyond: 0,
        agree: false,
    }
}

// An expectation file compared with a report.
pub fn compare(file: &[u8], report: &[u8]) -> Compared
    ensures { result ≡ compared file.now report.now }
{
    let Some(wanted) = expectation::of_file(file) else {
        return malformed();
    };
    let Some(found) = expectation::of_report(report) else {
        return malformed();
    };
    let agree = agreed(wanted.remainder, found.remainder);
    counts(file, report, wanted.items, found.items, agree)
}
