// The unit in which a text's fill ends: `A`s, and then the characters that are no whole units. What a text with its fill is, is in specs/.
#![tactic(auto)]

ghost use Rattle.std.specs.Prelude.{◌≡◌, ◌-◌, ◌%◌, length, replicate};
ghost use Rattle.std.proofs.Math.Seq.{paste};

pub fn first_unit(chars: &[u8]) -> [u8; 4]
    ensures { result ≡ paste (replicate 4 65) (4 - length chars.now % 4) chars.now (length chars.now % 4) }
{
    let mut unit = [b'A'; 4];
    let k = chars.len() % 4;
    let fill = 4 - k;
    unit[fill..].copy_from_slice(&chars[..k]);
    unit
}
