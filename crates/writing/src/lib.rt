// Writing a single primitive as text or as binary into a lent buffer: 6, 12, 18, 5 or 19, 16, 3. A refused call writes nothing, exact
// room suffices, and bytes behind the item stay. What is to be written is planned first, for either form: the item's size and first bytes,
// or a refusal, whose order `writing_order` knows; room is asked last.
#![tactic(auto)]

ghost use Rattle.std.specs.Prelude.{◌≡◌, length};
ghost use Rattle.format.specs.Writing.{named, units_of, write_text, text_item_left, write_binary, binary_item_left};
ghost use Rattle.writing_code.specs.Names.{as_named};
ghost use Rattle.writing.specs.Plan.{planned_of, plan_of};

use format::{BinaryOffset, Code, Refusal, TextOffset};
use writing_code::Named;

// What is written, or a number and a place.
#[derive(Clone, Copy)]
pub enum Planned {
    Refused(u8, usize),
    // an item of so many units that a raw value ends
    Units(usize),
    // a text behind so many header units
    Text(usize),
}

// The same with the item's first bytes: what stands before the raw value or the text, and then zeros.
#[derive(Clone, Copy)]
pub struct Plan {
    pub planned: Planned,
    pub head: [u8; 9],
}

fn planned_of(n: Named, raw: usize) -> Planned
    ensures { result ≡ planned_of (as_named n) (units_of (as_named n) raw) }
{
    let units = writing_code::units_of(n, raw);
    match n {
        Named::Unknown => Planned::Units(units),
        Named::Row(_) => Planned::Units(units),
        Named::Variable { letter: _, head: _ } => Planned::Units(units),
        Named::Textual { head } => Planned::Text(usize::from(head)),
    }
}

pub fn plan_item(code: Code, tag: [u8; 11], tags: usize, raw: &[u8]) -> Plan
    ensures { result ≡ plan_of (named code) tag tags raw.now }
{
    let n = writing_code::name_of(code);
    if let Some(why) = writing_order::refusal_of(n, tag, tags, raw) {
        return Plan {
            planned: Planned::Refused(why.number, why.place),
            head: [0; 9],
        };
    }
    let planned = planned_of(n, raw.len());
    let head = writing_head::head_bytes(n, tag, tags, raw.len());
    Plan { planned, head }
}

// A primitive as binary, from the buffer's start. A refusal's place is, for 5 and 19, the index of the tag character or of the text's.
pub fn write_binary(
    code: Code,
    tag: [u8; 11],
    tags: usize,
    raw: &[u8],
    out: &mut [u8],
) -> Result<BinaryOffset, Refusal<usize>>
    ensures value { result ≡ write_binary code tag tags raw.now (length out.old) }
    ensures out_after { out.new ≡ binary_item_left result code tag tags raw.now out.old }
{
    let plan = plan_item(code, tag, tags, raw);
    let planned = plan.planned;
    match planned {
        Planned::Refused(number, at) => Err(Refusal { number, place: at }),
        Planned::Units(n) => {
            let head = plan.head;
            writing_raw::binary_item(n, head, raw, out)
        }
        Planned::Text(header) => {
            let head = plan.head;
            writing_packed::text_in_binary(header, head, raw, out)
        }
    }
}

// A primitive as text, from the buffer's start: the text of the binary, with no buffer between.
pub fn write_text(
    code: Code,
    tag: [u8; 11],
    tags: usize,
    raw: &[u8],
    out: &mut [u8],
) -> Result<TextOffset, Refusal<usize>>
    ensures value { result ≡ write_text code tag tags raw.now (length out.old) }
    ensures out_after { out.new ≡ text_item_left result code tag tags raw.now out.old }
{
    let plan = plan_item(code, tag, tags, raw);
    let planned = plan.planned;
    match planned {
        Planned::Refused(number, place) => Err(Refusal { number, place }),
        Planned::Units(n) => {
            let head = plan.head;
            writing_raw::text_item(n, head, raw, out)
        }
        Planned::Text(header) => {
            let head = plan.head;
            writing_text::text_in_text(header, head, raw, out)
        }
    }
}
