// An item's own checks, which the walk and the single readers make: of a primitive 5 behind the header, 18, 9, 8, 16, 10; of an indexed item
// 5, 8, 15; of a group 11, 18. A header's checks look at the item's first sextets, 0 past its end.
#![tactic(auto)]

ghost use Rattle.std.specs.Prelude.{◌≡◌};
ghost use Rattle.format.specs.declared.Verdict.TheVariants as Verdict;
ghost use Rattle.format.specs.Units.{text_sextets};
ghost use Rattle.format.specs.Judging.{and_then, behind};
ghost use Rattle.judging.specs.Own.{own_by, told_by};

use format::{Framed, Kind, Verdict};

// How many groups may be open, one in the other: 64 by 02 g.
pub const MAX_DEPTH: usize = nesting::MAX_DEPTH;

fn after(b: Verdict, v: Verdict) -> Verdict
    ensures { result ≡ and_then b v }
{
    match b {
        Verdict::Accepted => v,
        Verdict::Refused {
            number: _,
            place: _,
        } => b,
    }
}

// The own checks of an item of a text: kind, header units and size n in units as framed, its first sextets, its own characters,
// and how many more groups may be entered.
pub fn own_text(kind: Kind, h: usize, n: usize, cs: [u8; 12], item: &[u8], levels: usize) -> Verdict
    ensures { result ≡ own_by kind h n cs (behind h (text_sextets item.now)) levels }
{
    match kind {
        Kind::Fixed(c) => {
            let b = judging_behind::behind_text(item, h);
            after(b, judging_fixed::fixed_checks(c, cs))
        }
        Kind::Variable {
            letter,
            lead,
            count,
        } => {
            let b = judging_behind::behind_text(item, h);
            let v = judging_variable::variable_checks(letter, lead, count, h, cs);
            after(b, v)
        }
        Kind::Group { letter: _ } => {
            let units = judging_header::units_behind(n, h);
            judging_header::group_checks(h, units, levels)
        }
        Kind::Genus => Verdict::Accepted,
        Kind::Indexed(c) => {
            let b = judging_behind::behind_text(item, h);
            after(b, judging_indexed::indexed_checks(c, cs))
        }
    }
}

// The same of a binary, where every sextet is in the alphabet.
pub fn own_binary(kind: Kind, h: usize, n: usize, cs: [u8; 12], levels: usize) -> Verdict
    ensures { result ≡ own_by kind h n cs Verdict.Accepted levels }
{
    match kind {
        Kind::Fixed(c) => judging_fixed::fixed_checks(c, cs),
        Kind::Variable {
            letter,
            lead,
            count,
        } => judging_variable::variable_checks(letter, lead, count, h, cs),
        Kind::Group { letter: _ } => {
            let units = judging_header::units_behind(n, h);
            judging_header::group_checks(h, units, levels)
        }
        Kind::Genus => Verdict::Accepted,
        Kind::Indexed(c) => judging_indexed::indexed_checks(c, cs),
    }
}

// A framed item after its verdict: the item, or the refusal in its place.
pub fn told(framed: Framed, v: Verdict) -> Framed
    ensures { result ≡ told_by framed v }
{
    match v {
        Verdict::Accepted => framed,
        Verdict::Refused { number, place } => Framed::Unframed { number, place },
    }
}
