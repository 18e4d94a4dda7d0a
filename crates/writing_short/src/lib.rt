// 18: a large code for a value that the small one holds.
#![tactic(auto)]

ghost use Rattle.std.specs.Prelude.{◌≡◌};
ghost use Rattle.format.specs.Writing.{is_short};
ghost use Rattle.writing_code.specs.Names.{as_named};

use writing_code::Named;

pub fn is_short(n: Named, raw: usize) -> bool
    ensures { result ≡ is_short (as_named n) raw }
{
    match n {
        Named::Unknown => true,
        Named::Row(_) => true,
        Named::Variable { letter: _, head } => {
            let triplets = writing_sizes::count_for(raw);
            judging_header::is_shortest(usize::from(head), triplets)
        }
        Named::Textual { head } => {
            let quadlets = writing_sizes::text_count(raw);
            judging_header::is_shortest(usize::from(head), quadlets)
        }
    }
}
