// A JSON item of a mixed stream, framed by its header of 23 bytes: `{"v":"` and the version string. Its body is not looked at.
#![tactic(auto)]

ghost use Rattle.std.specs.Prelude.{◌≡◌, ◌+◌, ◌*◌, ◌<◌, ◌≤◌, length, get_or};
ghost use Rattle.mixed.specs.Json.{hex_of, meets, pattern, passes, json_size, fit_json, frame_json};

use format::{Framed, Kind};

// The header's bytes: 0 stands for a capital letter, 1 for a lowercase hexadecimal digit, any other for itself.
const PATTERN: [u8; 23] = [
    123, 34, 118, 34, 58, 34, 0, 0, 0, 0, 1, 1, 74, 83, 79, 78, 1, 1, 1, 1, 1, 1, 95,
];

// The value of a lowercase hexadecimal digit, 16 for every other byte.
fn hex(c: u8) -> usize
    ensures { (result ≡ hex_of c) × (result ≤ 16) }
{
    if c < 48 {
        return 16;
    }
    if c <= 57 {
        return usize::from(c - 48);
    }
    if c < 97 {
        return 16;
    }
    if c <= 102 {
        return usize::from(c - 87);
    }
    16
}

// ---- the header

// A byte against one of the pattern.
fn is_met(p: u8, c: u8) -> bool
    ensures { result ≡ meets p c }
{
    if p == 0 {
        if c < 65 {
            return false;
        }
        return c <= 90;
    }
    if p == 1 {
        return hex(c) < 16;
    }
    c == p
}

fn is_header(s: &[u8]) -> bool
    requires { 23 ≤ length s.now }
    ensures { result ≡ passes pattern 0 s.now }
{
    PATTERN.iter().zip(s).all(|(p, c)| is_met(*p, *c))
}

// ---- the total length

// Two digits.
fn pair(s: &[u8], i: usize) -> usize
    requires { (i < 22) × (23 ≤ length s.now) }
    ensures { (result ≡ hex_of (get_or s.now i 0) * 16 + hex_of (get_or s.now (i + 1) 0)) × (result ≤ 272) }
{
    hex(s[i]) * 16 + hex(s[i + 1])
}

// Six.
fn json_size(s: &[u8]) -> usize
    requires { 23 ≤ length s.now }
    ensures { (result ≡ json_size s.now) × (result < 33554432) }
{
    let high = pair(s, 16);
    let middle = pair(s, 18);
    let low = pair(s, 20);
    (high * 256 + middle) * 256 + low
}

// ---- the item

fn unframed(number: u8) -> Framed
    ensures { result ≡ Framed.Unframed number 0 }
{
    Framed::Unframed { number, place: 0 }
}

// Of a header that is as it should be: a length below 23 is 17, one past the end 4.
fn fit_json(size: usize, len: usize) -> Framed
    ensures { result ≡ fit_json Kind.Genus size len }
{
    if size < 23 {
        return unframed(17);
    }
    if len < size {
        return unframed(4);
    }
    Framed::Item {
        kind: Kind::Genus,
        head: 23,
        size,
    }
}

// What stands at the start of a stream's part, as a JSON item. Fewer than 23 bytes are 4, then a malformed header is 17.
pub fn frame_json(s: &[u8]) -> Framed
    ensures { result ≡ frame_json Kind.Genus s.now }
{
    if s.len() < 23 {
        return unframed(4);
    }
    if is_header(s) {
        return fit_json(json_size(s), s.len());
    }
    unframed(17)
}
