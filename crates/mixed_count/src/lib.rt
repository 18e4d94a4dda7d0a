// How many items a mixed stream has, since room is asked by them. The size of a CESR item is told by its first unit where that tells it, and
// small groups with one header that follow one another are counted at once. The tables are lent; `to` is a byte in front of which, from the
// present one on, all characters of a text are known.
#![tactic(auto)]

ghost use Rattle.std.specs.Prelude.{◌≡◌, ◌≤◌, length, drop};
ghost use Rattle.mixed.specs.Mixed.{frame_mixed};
ghost use Rattle.mixed_count.specs.Sizes.{size_of, Begun, NextBy, Next, Total};

use format::{Form, Framed};
use mixed::Start;
use runs_tables::Tables;

// An item of so many elements or units, and how many more of that size behind it are counted at once; no size where nothing is framed.
#[derive(Clone, Copy)]
struct Step {
    size: usize,
    more: usize,
}

// By the general way: the size of what stands at a byte, or 0 where nothing is framed.
fn size_general(s: &[u8], at: usize) -> usize
    requires { at ≤ length s.now }
    ensures { result ≡ size_of (frame_mixed (drop at s.now)) }
{
    match mixed_frame::framed(&s[at..]) {
        Framed::Item {
            kind: _,
            head: _,
            size,
        } => size,
        Framed::Unframed {
            number: _,
            place: _,
        } => 0,
    }
}

// The CESR item of a form at a part's start, in units: with the small groups behind it that have its header, if it is one.
fn begun(form: Form, tables: &Tables, part: &[u8], clean: usize) -> Step
    ensures { Begun form tables.now part.now clean result.size result.more }
{
    let g = report_sizes::group_size(form, tables, part, clean, 0);
    if 0 < g {
        let more = report_followers::followers(form, part, true, clean, 0, g);
        return Step { size: g, more };
    }
    let size = report_sizes::size(form, tables, part, clean, 0);
    Step { size, more: 0 }
}

// The same at a byte, in bytes.
fn next_cesr(form: Form, tables: &Tables, s: &[u8], at: usize, to: usize) -> Step
    requires { at ≤ length s.now }
    ensures { NextBy form tables.now s.now at to result.size result.more }
{
    let clean = mixed_known::clean(form, s, at, to);
    let l = begun(form, tables, &s[at..], clean);
    Step {
        size: l.size * report_units::unit(form),
        more: l.more,
    }
}

// Either way.
fn next(tables: &Tables, s: &[u8], at: usize, to: usize) -> Step
    requires { at ≤ length s.now }
    ensures { Next tables.now s.now at to result.size result.more }
{
    if let Start::Cesr(form) = mixed_frame::start(s, at) {
        return next_cesr(form, tables, s, at, to);
    }
    Step {
        size: size_general(s, at),
        more: 0,
    }
}

pub fn count(tables: &Tables, s: &[u8], known: usize) -> usize
    ensures { Total tables.now s.now known result }
{
    let mut to = known;
    let mut at = 0;
    let mut i = 0;
    while at < s.len() {
        to = mixed_known::known(s, at, to);
        let l = next(tables, s, at, to);
        if l.size == 0 {
            return i;
        }
        at = at + (l.size + l.more * l.size);
        i = i + (1 + l.more);
    }
    i
}
