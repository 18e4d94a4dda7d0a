// The order in which the call that writes a group refuses: 3 (the stated length), 1, 6, 2, what a walk of the body gives, 3 (room). Here is
// what is asked before the walk, the state it starts from and what is told behind it; no stream is looked at.
#![tactic(auto)]

ghost use Rattle.std.specs.Prelude.{◌≡◌, ◌*◌, ◌/◌, ◌≤◌};
ghost use Rattle.format.specs.Units.{domain};
ghost use Rattle.format.specs.Registry.{is_group};
ghost use Rattle.groups.specs.Grouping.{head_units, within, room_for};
ghost use Rattle.groups_order.specs.Order.{before_walk};

use format::{Form, Refusal};
use instalments::Pause;
use walk_state::Walk;

// A refusal, with the place 0; or what is to be walked: contents of a group of this letter, a sextet, and the group's size.
#[derive(Clone, Copy)]
pub enum Before {
    Refused(u8),
    Contents { letter: u8, size: usize },
}

// ---- before the walk

fn is_group(letter: u8) -> bool
    ensures { result ≡ is_group letter }
{
    letter < 29
}

// The elements of the header of a body of this length.
pub fn head_size(form: Form, len: usize) -> usize
    ensures { (result ≡ head_units (len / (domain form).unit) * (domain form).unit) × (result ≤ 8) }
{
    let n = report_units::units(form, len);
    groups_header::head_units(n) * report_units::unit(form)
}

// letter: a character; len: the length of the body; room: the buffer's.
pub fn before_walk(form: Form, letter: u8, len: usize, room: usize) -> Before
    ensures { result ≡ before_walk form letter len room }
{
    if room < len {
        return Before::Refused(3);
    }
    let head = head_size(form, len);
    if report_units::limit(form) - head < len {
        return Before::Refused(1);
    }
    let l = alphabet::sextet(letter);
    if !is_group(l) {
        return Before::Refused(6);
    }
    if len % report_units::unit(form) != 0 {
        return Before::Refused(2);
    }
    Before::Contents {
        letter: l,
        size: head + len,
    }
}

// ---- the walk

// The state at the start of n units within a group of this letter.
pub fn within(letter: u8, n: usize) -> Walk
    ensures { result ≡ within letter n }
{
    let first = registry::is_overrideable(letter);
    let indexed = registry::is_indexed(letter);
    Walk::new().step(0, n, true, first, indexed)
}

// Behind it: a group of this size in so much room.
pub fn room_for(pause: Pause<usize>, size: usize, room: usize) -> Result<usize, Refusal<usize>>
    ensures { result ≡ room_for pause size room }
{
    match pause {
        Pause::End => {
            if room < size {
                Err(Refusal {
                    number: 3,
                    place: 0,
                })
            } else {
                Ok(size)
            }
        }
        Pause::Refused { number, place } => Err(Refusal { number, place }),
        Pause::Spent => Err(Refusal {
            number: 13,
            place: 0,
        }),
    }
}
