// How much a variable code holds, by its header's units: what 12 asks of a raw value's length, and of a text's with its fill.
#![tactic(auto)]

ghost use Rattle.std.specs.Prelude.{◌≡◌, ◌+◌, ◌≤◌, leb};
ghost use Rattle.format.specs.Texts.{fill_for};
ghost use Rattle.format.specs.Writing.{raw_limit, text_limit};

pub fn raw_limit(head: u8) -> usize
    ensures { result ≡ raw_limit head }
{
    if head == 1 { 12285 } else { 3145722 }
}

// Of a text with its fill.
fn text_limit(head: u8) -> usize
    ensures { (result ≡ text_limit head) × (result ≤ 4194296) }
{
    if head == 1 { 16380 } else { 4194296 }
}

pub fn text_fits(head: u8, chars: usize) -> bool
    ensures { result ≡ leb (chars + fill_for chars) (text_limit head) }
{
    let most = text_limit(head);
    if most < chars {
        return false;
    }
    chars + writing_sizes::fill_for(chars) <= most
}
