// 3: whether a buffer has no room for a value, so many raw bytes and so many characters of a text.
#![tactic(auto)]

ghost use Rattle.std.specs.Prelude.{◌≡◌, ◌+◌, ltb};

pub fn lacks(room: usize, raw: usize, text: usize) -> bool
    ensures { result ≡ ltb room (raw + text) }
{
    if room < raw {
        return true;
    }
    let left = room - raw;
    left < text
}
