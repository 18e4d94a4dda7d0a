// The fast way to an accepted small group whose items the master table frames, of either form: groups that stand one in the other are
// entered at once, and the innermost one's items are looked at (report_fast). One-sided: true says that the group is accepted, false says
// nothing. Positions count units.
#![tactic(auto)]

ghost use Rattle.std.specs.Prelude.{◌≡◌, true, false, ◌+◌, ◌-◌, ◌≤◌, ◌<◌, length};
ghost use Rattle.format.specs.declared.Verdict.TheVariants.{Accepted};
ghost use Rattle.format.specs.Units.{domain};
ghost use Rattle.format.specs.Registry.{is_overrideable};
ghost use Rattle.format.specs.Judging.{max_depth};
ghost use Rattle.laws.specs.Levels.{level};
ghost use Rattle.runs.specs.Plain.{group_at, letter_at};
ghost use Rattle.runs.specs.Levels.{Clear};
ghost use Rattle.runs_tables.specs.Lent.{Lent};
ghost use Rattle.report_found.specs.Limits.{longest};
ghost use Rattle.report_fast_laws.specs.Fast.{Reach, Ready, Good};

use format::Form;
use judging::MAX_DEPTH;
use runs_tables::Tables;

// The contents of a small group that ends in front of another unit.
fn inside_accepted(form: Form, tables: &Tables, s: &[u8], at: usize, stop: usize) -> bool
    requires { Reach form s.now at stop × (at < stop) }
    ensures { Ready form tables.now s.now at stop → group_at ((domain form).sextets s.now) at ≡ stop - at → result ≡ true → level ((domain form).sextets s.now) false (max_depth - 1) (is_overrideable (letter_at ((domain form).sextets s.now) at)) (at + 1) stop ≡ Accepted }
{
    let d = report_first::nested(form, tables, s, at + 1, stop, MAX_DEPTH - 1);
    let i = at + 1 + d;
    if report_first::plain(form, tables, s, i) == stop - i {
        return true;
    }
    let first = report_first::marks(form, tables, s, at + d);
    report_fast::passes(form, tables, s, false, MAX_DEPTH - 1 - d, first, i, stop)
}

// Whether the small group of so many units at a unit of a stream is accepted and known up to a unit. Groups that stand one in the other
// are entered at once.
pub fn group_accepted(
    form: Form,
    tables: &Tables,
    s: &[u8],
    clean: usize,
    at: usize,
    size: usize,
) -> bool
    ensures { length s.now ≤ longest → Lent tables.now → Clear ((domain form).sextets s.now) at clean → group_at ((domain form).sextets s.now) at ≡ size → result ≡ true → Good (domain form) s.now at size }
{
    let end = clean.min(report_units::units(form, s.len()));
    if end <= at {
        return false;
    }
    if end - at < size {
        return false;
    }
    if size == 0 {
        return false;
    }
    inside_accepted(form, tables, s, at, at + size)
}
