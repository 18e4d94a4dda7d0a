// Small groups at a position of a text, by the characters of its first unit and the tables lent: their sizes, which table frames their
// items, and which of them stand one in the other. Whether a character is known is not asked.
#![tactic(auto)]

ghost use Rattle.std.specs.Prelude.{◌≡◌, ◌/◌, ◌<◌, length};
ghost use Rattle.runs.specs.Plain.{group_by, class_by, nested_at};

// A small group of a letter up to a class. By the characters themselves, which saves look-ups: 45 is `-`.
#[tactic(auto, unfolding(runs::specs::Plain::unit_by, runs::specs::Plain::char_group))]
fn group_in_text(values: &[u8; 256], classes: &[u8; 256], last: u8, s: &[u8], at: usize) -> usize
    requires { at < length s.now / 4 }
    ensures { result ≡ group_by values.now classes.now last s.now at }
{
    let i = 4 * at;
    if s[i] != 45 {
        return 0;
    }
    if last < alphabet::value(classes, s[i + 1]) {
        return 0;
    }
    let c = alphabet::value(values, s[i + 2]);
    let d = alphabet::value(values, s[i + 3]);
    runs::counted(c, d)
}

// The size in units of the small group at a unit, whichever table frames its items, or 0.
#[tactic(auto, unfolding(runs::specs::Plain::unit_by))]
pub fn small_text(values: &[u8; 256], classes: &[u8; 256], s: &[u8], at: usize) -> usize
    ensures { result ≡ group_by values.now classes.now 2 s.now at }
{
    if s.len() / 4 <= at {
        return 0;
    }
    group_in_text(values, classes, 2, s, at)
}

// Whether the letter of the small group at a unit is of a class.
#[tactic(auto, unfolding(runs::specs::Plain::class_by))]
fn is_class(classes: &[u8; 256], class: u8, s: &[u8], at: usize) -> bool
    ensures { result ≡ class_by classes.now class s.now at }
{
    if s.len() / 4 <= at {
        return false;
    }
    alphabet::value(classes, s[4 * at + 1]) == class
}

// Whether the indexed table frames the items of the small group at a unit.
pub fn signed_text(classes: &[u8; 256], s: &[u8], at: usize) -> bool
    ensures { result ≡ class_by classes.now 2 s.now at }
{
    is_class(classes, 2, s, at)
}

// Whether 7 is asked of its first item.
pub fn marks_text(classes: &[u8; 256], s: &[u8], at: usize) -> bool
    ensures { result ≡ class_by classes.now 1 s.now at }
{
    is_class(classes, 1, s, at)
}

// How many small groups whose items the master table frames, of so many at most, stand one in the other from a unit on, each all that is
// left up to another unit.
pub fn nested_text(
    values: &[u8; 256],
    classes: &[u8; 256],
    s: &[u8],
    at: usize,
    stop: usize,
    most: usize,
) -> usize
    ensures { result ≡ nested_at (group_by values.now classes.now 1 s.now) (length s.now / 4) stop most at }
{
    if s.len() / 4 < stop {
        return 0;
    }
    let all = stop.saturating_sub(at);
    let limit = all.min(most);
    for n in 0..limit {
        if group_in_text(values, classes, 1, s, at + n) != all - n {
            return n;
        }
    }
    limit
}
