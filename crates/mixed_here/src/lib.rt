// What stands at a byte of a mixed stream, framed and judged: a CESR item by the fast way where that accepts it, and else by the general way.
// The tables are lent; `to` is a byte in front of which, from the present one on, all characters of a text are known.
#![tactic(auto)]

ghost use Rattle.std.specs.Prelude.{◌≤◌, length};
ghost use Rattle.mixed_here.specs.Here.{General, Judged};

use format::{Framed, Verdict};
use mixed::Start;
use runs_tables::Tables;

// An item of so many bytes with its verdict, its place in the stream, and the byte of its form; or nothing is framed, for this reason.
#[derive(Clone, Copy)]
pub enum Standing {
    Item {
        size: usize,
        verdict: Verdict,
        form: u8,
    },
    Rest {
        number: u8,
    },
}

// By the general way.
fn general(s: &[u8], at: usize) -> Standing
    requires { at ≤ length s.now }
    ensures { General s.now at result }
{
    match mixed_frame::framed(&s[at..]) {
        Framed::Unframed { number, place: _ } => Standing::Rest { number },
        Framed::Item {
            kind: _,
            head: _,
            size,
        } => {
            let verdict = mixed_item::verdict(s, at, size);
            let form = mixed_frame::form_byte(mixed_frame::start(s, at));
            Standing::Item {
                size,
                verdict,
                form,
            }
        }
    }
}

// By the fast way where that accepts it. Past the end no refusal's number is told.
pub fn judged(tables: &Tables, s: &[u8], at: usize, to: usize) -> Standing
    ensures { Judged tables.now s.now at to result }
{
    if s.len() < at {
        return Standing::Rest { number: 0 };
    }
    if let Start::Cesr(form) = mixed_frame::start(s, at) {
        let size = mixed_fast::accepted(form, tables, s, at, to);
        if 0 < size {
            return Standing::Item {
                size,
                verdict: Verdict::Accepted,
                form: mixed_frame::form_byte(Start::Cesr(form)),
            };
        }
    }
    general(s, at)
}
