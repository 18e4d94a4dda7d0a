// The walk: items at all depths, outer before inner, one a step. A step frames and judges the next item and gives the state behind it.
// One code serves both forms: a Form goes with the stream, and only what reads a unit looks at it.
#![tactic(auto)]

ghost use Rattle.std.specs.Prelude.{◌≡◌, ◌+◌, ◌-◌, ◌*◌, ◌/◌, ◌%◌, ◌≤◌, length};
ghost use Rattle.base.specs.Pick.{pick};
ghost use Rattle.format.specs.Units.{domain};
ghost use Rattle.format.specs.Judging.{max_depth};
ghost use Rattle.laws.specs.Levels.{part};
ghost use Rattle.report_next.specs.Next.{next_own};
ghost use Rattle.walk_state.specs.declared.Found.TheVariants as Found;
ghost use Rattle.walk_state.specs.Walking.{step_fit, found_in, step_in, text_step, binary_step};
ghost use Rattle.walk_state.specs.Lent.{walk_at};
ghost use Rattle.walk.specs.Stepping.{is_asked, found_by, in_elements, Steps, reach, Ready, Spans, Near, Fits, InReach};

use format::{BinaryOffset, Form, Framed, TextOffset};
use judging::MAX_DEPTH;
use walk_state::{Found, Place, Stepped, Walk};

// Where a step in lent slots leads, and what it finds.
#[derive(Clone, Copy)]
pub struct Moved {
    pub place: Place,
    pub found: Found<usize>,
}

// ---- the next item

// 7 is asked at top level, and where the mark is set.
fn is_asked(p: Place) -> bool
    ensures { result ≡ is_asked p }
{
    if p.depth == 0 { true } else { p.first }
}

// The next item up to where its group ends, framed and judged by its own checks, or its refusal.
fn next_item(p: Place, form: Form, s: &[u8], stop: usize) -> Framed
    requires { Spans form s.now p stop }
    ensures { result ≡ next_own p.indexed (is_asked p) (part ((domain form).sextets s.now) p.at stop) (max_depth - p.depth) }
{
    let asked = is_asked(p);
    let levels = MAX_DEPTH - p.depth;
    let indexed = p.indexed;
    let at = p.at;
    match form {
        Form::Text => {
            let from = 4 * at;
            let to = 4 * stop;
            report_next::next_text(&s[from..to], indexed, asked, levels)
        }
        Form::Binary => {
            let from = 3 * at;
            let to = 3 * stop;
            report_next::next_binary(&s[from..to], indexed, asked, levels)
        }
    }
}

// ---- a step

// What is told of the next item, and the state behind it. At a refusal the state stays as it was.
fn yielded(slots: &mut [usize], p: Place, item: Framed) -> Moved
    requires { (max_depth ≤ length slots.old) × (p.depth ≤ max_depth) × (p.at ≤ reach) × Ready p item }
    ensures { Steps slots.old slots.new result (found_by (walk_at slots.old p) item) }
{
    let at = p.at;
    match item {
        Framed::Unframed { number, place } => Moved {
            place: p,
            found: Found::Refused {
                number,
                place: 4 * at + place,
            },
        },
        Framed::Item { kind, head, size } => {
            let opens = report_next::is_entered(kind);
            let mark = report_next::is_ruled(kind);
            let indexed = report_next::holds_indexed(kind);
            let depth = p.depth;
            let place = walk_state::advance(slots, p, at + head, at + size, opens, mark, indexed);
            Moved {
                place,
                found: Found::Item {
                    offset: at,
                    size,
                    depth,
                    kind,
                    head,
                },
            }
        }
    }
}

// At the end of the whole units, where elements of one more may stand.
fn ended(p: Place, tail: bool) -> Moved
    requires { p.at ≤ reach }
    ensures { result ≡ record { place = p; found = pick tail (Found.Refused 4 (4 * p.at)) Found.End } }
{
    let at = p.at;
    if tail {
        return Moved {
            place: p,
            found: Found::Refused {
                number: 4,
                place: 4 * at,
            },
        };
    }
    Moved {
        place: p,
        found: Found::End,
    }
}

// The step of a state over a stream of n whole units; tail: elements of one more stand behind them. Offset and size are in units, the
// place in sextets.
fn move_units(slots: &mut [usize], p: Place, form: Form, s: &[u8], n: usize, tail: bool) -> Moved
    requires { (max_depth ≤ length slots.old) × Near form s.now n (walk_at slots.old p) }
    ensures { Steps slots.old slots.new result (step_fit ((domain form).sextets s.now) n tail (walk_at slots.old p)) }
{
    if p.at == n {
        return ended(p, tail);
    }
    let stop = walk_fit::stop(slots, p, n);
    let item = next_item(p, form, s, stop);
    yielded(slots, p, item)
}

// ---- units and sextets as elements of a form

// So many units.
fn elements(form: Form, units: usize) -> usize
    requires { units ≤ reach }
    ensures { result ≡ units * (domain form).unit }
{
    match form {
        Form::Text => units * 4,
        Form::Binary => units * 3,
    }
}

// The place of a sextet.
fn place_in(form: Form, place: usize) -> usize
    ensures { result ≡ place / 4 * (domain form).unit + place % 4 }
{
    match form {
        Form::Text => place / 4 * 4 + place % 4,
        Form::Binary => place / 4 * 3 + place % 4,
    }
}

fn found_in(form: Form, found: Found<usize>) -> Found<usize>
    requires { InReach found }
    ensures { result ≡ found_in (domain form).unit found }
{
    match found {
        Found::Item {
            offset,
            size,
            depth,
            kind,
            head,
        } => Found::Item {
            offset: elements(form, offset),
            size: elements(form, size),
            depth,
            kind,
            head,
        },
        Found::Refused { number, place } => Found::Refused {
            number,
            place: place_in(form, place),
        },
        Found::End => found,
    }
}

// ---- a step over a stream

fn refused(p: Place, number: u8) -> Moved
    ensures { result ≡ record { place = p; found = Found.Refused number 0 } }
{
    Moved {
        place: p,
        found: Found::Refused { number, place: 0 },
    }
}

// The same in the stream's elements.
fn move_near(slots: &mut [usize], p: Place, form: Form, s: &[u8], n: usize, tail: bool) -> Moved
    requires { (max_depth ≤ length slots.old) × Near form s.now n (walk_at slots.old p) }
    ensures { Steps slots.old slots.new result (in_elements (domain form).unit (step_fit ((domain form).sextets s.now) n tail (walk_at slots.old p))) }
{
    let m = move_units(slots, p, form, s, n, tail);
    let place = m.place;
    let found = m.found;
    Moved {
        place,
        found: found_in(form, found),
    }
}

// The next item at any depth, the first refusal or the end, the state's ends in lent slots. Offset, size and place count the stream's
// elements. Too few slots stay as they are.
pub fn move_in(slots: &mut [usize], p: Place, form: Form, s: &[u8]) -> Moved
    ensures { max_depth ≤ length slots.old → Steps slots.old slots.new result (step_in (domain form) s.now (walk_at slots.old p)) }
{
    if slots.len() < MAX_DEPTH {
        return refused(p, 13);
    }
    let e = walk_extent::measured(form, s);
    if e.over {
        return refused(p, 1);
    }
    if !walk_fit::is_fit(slots, p, e.units) {
        return refused(p, 13);
    }
    move_near(slots, p, form, s, e.units, e.tail)
}

// The same for a caller that has asked 1 and 13 before, so that neither is asked again: of a state that fits a stream within the limit.
// Of any other it is said only that the call returns.
pub fn move_fit(slots: &mut [usize], p: Place, form: Form, s: &[u8]) -> Moved
    ensures { max_depth ≤ length slots.old → Fits form s.now (walk_at slots.old p) → Steps slots.old slots.new result (step_in (domain form) s.now (walk_at slots.old p)) }
{
    if slots.len() < MAX_DEPTH {
        return refused(p, 13);
    }
    let e = walk_extent::measured(form, s);
    if !walk_extent::is_near(slots, p, e) {
        return refused(p, 13);
    }
    move_near(slots, p, form, s, e.units, e.tail)
}

// The same with the state by value.
pub fn step_in(w: Walk, form: Form, s: &[u8]) -> Stepped<usize>
    ensures { result ≡ step_in (domain form) s.now w }
{
    let mut ends = w.ends;
    let m = move_in(&mut ends, w.place(), form, s);
    let p = m.place;
    let found = m.found;
    Stepped {
        next: Walk {
            ends,
            depth: p.depth,
            at: p.at,
            first: p.first,
            indexed: p.indexed,
        },
        found,
    }
}

// ---- in a form's own offsets

// A step over a text.
pub fn step_text(w: Walk, s: &[u8]) -> Stepped<TextOffset>
    ensures { result ≡ text_step s.now w }
{
    let r = step_in(w, Form::Text, s);
    let next = r.next;
    let found = r.found;
    Stepped {
        next,
        found: walk_forms::text_item(found),
    }
}

// A step over a binary.
pub fn step_binary(w: Walk, s: &[u8]) -> Stepped<BinaryOffset>
    ensures { result ≡ binary_step s.now w }
{
    let r = step_in(w, Form::Binary, s);
    let next = r.next;
    let found = r.found;
    Stepped {
        next,
        found: walk_forms::binary_item(found),
    }
}
