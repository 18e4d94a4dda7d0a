// What an expectation file says, and what a report does. Both are read as bytes; nothing here knows of a stream.
#![tactic(auto)]

ghost use Rattle.std.specs.Prelude.{◌≡◌, ◌+◌, ◌*◌, ◌<◌, ◌≤◌, [], ◌∷◌, length, drop};
ghost use Rattle.base.specs.Digits.{number_of};
ghost use Rattle.expectation.specs.Expectation.{count_at, expected, reported};
ghost use Rattle.expectation.specs.Bytes.{At, EndAt, Says};

// ---- sections

// How many rows a section has, and where it ends.
#[derive(Clone, Copy)]
struct Section {
    count: usize,
    end: usize,
}

// Four bytes as a number, most significant first.
fn quad(a: u8, b: u8, c: u8, d: u8) -> usize
    ensures { (result ≡ number_of 256 (a ∷ b ∷ c ∷ d ∷ [])) × (result < 4294967296) }
{
    u32::from_be_bytes([a, b, c, d]) as usize
}

fn count_at(s: &[u8], at: usize) -> usize
    requires { at + 4 ≤ length s.now }
    ensures { (result ≡ count_at (drop at s.now)) × (result < 4294967296) }
{
    quad(s[at], s[at + 1], s[at + 2], s[at + 3])
}

// The section from a position on, with rows of so many bytes; none where the bytes are too few.
fn section_at(s: &[u8], from: usize, width: usize) -> Option<Section>
    requires { (from ≤ length s.now) × (width ≤ 9) }
    ensures { At s.now from width result }
{
    let left = s.len() - from;
    if left < 4 {
        return None;
    }
    let count = count_at(s, from);
    let size = width * count;
    if left - 4 < size {
        return None;
    }
    Some(Section {
        count,
        end: from + 4 + size,
    })
}

// ---- what a file says

// How many verdicts, and the number of a remainder, if there is one.
#[derive(Clone, Copy)]
pub struct Verdicts {
    pub items: usize,
    pub remainder: Option<u8>,
}

// The last section, of at most one row of so many bytes with the number last, which ends the file. items: the verdicts before it.
fn last_section(s: &[u8], from: usize, width: usize, items: usize) -> Option<Verdicts>
    requires { (from ≤ length s.now) × (0 < width) × (width ≤ 9) }
    ensures { EndAt s.now from width items result }
{
    let Section { count, end } = section_at(s, from, width)?;
    if end != s.len() {
        return None;
    }
    if 1 < count {
        return None;
    }
    if count == 0 {
        return Some(Verdicts {
            items,
            remainder: None,
        });
    }
    Some(Verdicts {
        items,
        remainder: Some(s[end - 1]),
    })
}

// An expectation file: verdicts of one byte, then a remainder's number. None where it is malformed.
pub fn of_file(file: &[u8]) -> Option<Verdicts>
    ensures { Says (expected file.now) file.now 1 0 result }
{
    let verdicts = section_at(file, 0, 1)?;
    last_section(file, verdicts.end, 1, verdicts.count)
}

// A report: items of nine bytes with the verdict last, refusals of nine, a remainder of five with the number last. None where it is
// malformed.
pub fn of_report(report: &[u8]) -> Option<Verdicts>
    ensures { Says (reported report.now) report.now 9 8 result }
{
    let items = section_at(report, 0, 9)?;
    let refusals = section_at(report, items.end, 9)?;
    last_section(report, refusals.end, 5, items.count)
}
