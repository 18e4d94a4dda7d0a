// The value of a text's item, copied out: its raw bytes, and behind them its text. One of the two is empty.
#![tactic(auto)]

ghost use Rattle.std.specs.Prelude.{◌≡◌, ◌+◌, ◌-◌, ◌*◌, ◌≤◌, ◌/◌, length};
ghost use Rattle.reading_raw.specs.Raw.{Fit};
ghost use Rattle.reading_value.specs.Value.{value_into};

use format::BinaryOffset;

// The item's raw bytes from one of its binary form on, and behind them so many of its last characters, where there is room for both and
// the item has so many.
pub fn copy_value(item: &[u8], start: BinaryOffset, raw: usize, text: usize, out: &mut [u8])
    ensures { text ≤ length item.now → raw + text ≤ length out.old → Fit item.now → start.0 ≤ length item.now / 4 * 3 → raw ≡ length item.now / 4 * 3 - start.0 → out.new ≡ value_into item.now start.0 text out.old }
{
    if item.len() < text {
        return;
    }
    if reading_room::lacks(out.len(), raw, text) {
        return;
    }
    reading_raw::copy_raw(item, start, out);
    let from = item.len() - text;
    out[raw..raw + text].copy_from_slice(&item[from..]);
}
