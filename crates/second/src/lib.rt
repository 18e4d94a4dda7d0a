// A plain second judge (02 m), to be read by eye: a text is framed and judged by plain recursion over its groups, in the papers' order and by
// their names. It shares with the first engine the tables of alphabet and registry with their look-ups; no more. Places count characters of a
// text `t`; a start counts units.
#![tactic(auto)]

ghost use Rattle.std.specs.Prelude.{◌≡◌, ◌+◌, ◌-◌, ◌*◌, length, drop};
ghost use Rattle.format.specs.declared.Verdict.TheVariants.{Refused};
ghost use Rattle.format.specs.Units.{text_sextets};
ghost use Rattle.format.specs.Judging.{judge_kind, group, max_depth};
ghost use Rattle.second.specs.Items.{Own, Told, Next};

use format::{Framed, Kind, Verdict};
use second_framing::frame;

// What a text begins with: an item of so many units and its verdict, or none.
#[derive(Clone, Copy)]
pub enum Judged {
    Item { size: usize, verdict: Verdict },
    Unframed { number: u8, place: usize },
}

fn refused(number: u8, place: usize) -> Verdict
    ensures { result ≡ Refused number place }
{
    Verdict::Refused { number, place }
}

// The item that a text begins with, by the table that is asked, within so many groups: framed (7 where it is asked), then judged.
#[cycle(group_judge_next)]
pub fn next(indexed: bool, asked: bool, t: &[u8], depth: usize) -> Judged
    ensures { Next indexed asked (max_depth - depth) t.now result }
{
    match frame(indexed, asked, t) {
        Framed::Unframed { number, place } => Judged::Unframed { number, place },
        Framed::Item { kind, head, size } => {
            let verdict = judge(kind, head, &t[..4 * size], depth);
            Judged::Item { size, verdict }
        }
    }
}

// An item, the whole text, with a header of so many units, by its kind.
#[cycle(group_judge_next)]
fn judge(kind: Kind, head: usize, t: &[u8], depth: usize) -> Verdict
    requires { Own head t.now }
    ensures { Told (judge_kind kind head (text_sextets t.now) (group (max_depth - depth))) (length t.now + 8) result }
{
    match kind {
        Kind::Fixed(c) => second_judging::fixed(c, 4 * head, t),
        Kind::Variable {
            letter,
            lead,
            count,
        } => second_judging::variable(letter, lead, count, 4 * head, t),
        Kind::Group { letter } => group(letter, head, t, depth),
        Kind::Genus => Verdict::Accepted,
        Kind::Indexed(c) => second_judging::indexed(c, 4 * head, t),
    }
}

// A group, the whole text, by its letter: 11, 18, then its items one by one; 7 is asked of the first, if of any.
#[cycle(group_judge_next)]
fn group(letter: u8, head: usize, t: &[u8], depth: usize) -> Verdict
    requires { Own head t.now }
    ensures { Told (group (max_depth - depth) letter head (drop (4 * head) (text_sextets t.now))) (length t.now + 8) result }
{
    let v = second_judging::entered(depth, head, t.len() / 4 - head);
    if let Verdict::Refused { .. } = v {
        return v;
    }
    let indexed = registry::is_indexed(letter);
    let mut asked = registry::is_overrideable(letter);
    let mut start = head;
    while 4 * start < t.len() {
        match next(indexed, asked, &t[4 * start..], depth + 1) {
            Judged::Unframed { number, place } => return refused(number, 4 * start + place),
            Judged::Item { size, verdict } => {
                if let Verdict::Refused { number, place } = verdict {
                    return refused(number, 4 * start + place);
                }
                start = start + size;
                asked = false;
            }
        }
    }
    Verdict::Accepted
}
