// A group put into its buffer: the body moved on in place, and the header put before it. What stands behind the group stays,
// and so does a buffer that has no room for it.
#![tactic(auto)]

ghost use Rattle.std.specs.Prelude.{◌≡◌, ◌++◌, ◌-◌, ◌≤◌, length, take, drop};
ghost use Rattle.groups_put.specs.Put.{put_group};

use format::Form;

// The first size - h bytes moved on by h, and the header put before them.
fn put_front(buf: &mut [u8], head: [u8; 8], h: usize, size: usize)
    requires { (h ≤ 8) × (h ≤ size) × (size ≤ length buf.old) }
    ensures { buf.new ≡ (take h head ++ take (size - h) buf.old) ++ drop size buf.old }
{
    buf.copy_within(..size - h, h);
    buf[..h].copy_from_slice(&head[..h]);
}

// A group around the first len elements, if it has room; its letter is a sextet.
pub fn put_group(form: Form, letter: u8, len: usize, buf: &mut [u8])
    ensures { buf.new ≡ put_group form letter len buf.old }
{
    if buf.len() < len {
        return;
    }
    let h = groups_order::head_size(form, len);
    if buf.len() - len < h {
        return;
    }
    let n = report_units::units(form, len);
    let head = groups_header::header(form, letter, n);
    put_front(buf, head, h, h + len);
}
