// All units of a binary to text, into a lent buffer.
#![tactic(auto)]

ghost use Rattle.std.specs.Prelude.{◌≡◌};
ghost use Rattle.convert_unpack.specs.Left.{unpacked_left};

// Nothing is written where there is no room for all units.
pub fn to_text(src: &[u8], dst: &mut [u8])
    ensures { dst.new ≡ unpacked_left src.now dst.old }
{
    let n = src.len() / 3;
    convert_unpack_units::first_units(src, dst, n);
}
