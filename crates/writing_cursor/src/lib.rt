// Where a following item begins in a buffer: at the cursor, or at the end where the cursor is past it.
#![tactic(auto)]

ghost use Rattle.std.specs.Prelude.{◌≡◌, min};

// A cursor past the buffer's end leaves no room.
pub fn cursor_in(cursor: usize, len: usize) -> usize
    ensures { result ≡ min cursor len }
{
    cursor.min(len)
}
