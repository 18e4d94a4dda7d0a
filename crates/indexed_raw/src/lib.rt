// The part of a binary where the raw value of an indexed item lies: it is handed back, not copied.
#![tactic(auto)]

ghost use Rattle.std.specs.Prelude.{◌≡◌, ◌+◌};
ghost use Rattle.format.specs.Indexed.{read_indexed_binary, indexed_part};
ghost use Rattle.indexed_raw.specs.Part.{part_start};

use format::BinaryOffset;

// The part of the binary where the raw value of the indexed item at an offset lies: at the item's end. An empty part, at the stream's
// start, where reading refuses.
pub fn raw_indexed_binary(s: &[u8], at: BinaryOffset) -> &[u8]
    ensures result_value { result.now ≡ indexed_part s.now at.0 (read_indexed_binary s.now at.0) }
    ensures ref_ptr_value { result.ref_ptr ≡ (s.entry.ref_ptr.0, part_start at.0 (read_indexed_binary s.now at.0) + s.entry.ref_ptr.1) }
{
    let from = at.0;
    let read = indexed_binary::read_indexed_binary(s, at);
    match read {
        Err(_) => &s[..0],
        Ok(p) => {
            let start = from + p.start.0;
            let end = start + p.raw;
            &s[start..end]
        }
    }
}
