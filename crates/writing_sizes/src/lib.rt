// How a value fills its units, by its length: the lead bytes and triplets of a raw value, the `A`s, lead and quadlets of a text.
#![tactic(auto)]

ghost use Rattle.std.specs.Prelude.{◌≡◌, ◌+◌, ◌*◌, ◌<◌};
ghost use Rattle.format.specs.Texts.{fill_for, text_lead, text_count};
ghost use Rattle.format.specs.Writing.{lead_for, count_for};

// ---- a raw value

// The lead follows from the raw length.
pub fn lead_for(raw: usize) -> u8
    ensures { (result ≡ lead_for raw) × (result < 3) }
{
    ((3 - raw % 3) % 3) as u8
}

// The triplets of a raw value and its lead: one more where there is a lead.
pub fn count_for(raw: usize) -> usize
    ensures { (result ≡ count_for raw) × (3 * result < raw + 3) }
{
    raw.div_ceil(3)
}

// ---- a text

// The `A`s in front of it, which make it whole quadlets.
pub fn fill_for(chars: usize) -> usize
    ensures { (result ≡ fill_for chars) × (result < 4) × (result + chars ≡ 4 * text_count chars) }
{
    (4 - chars % 4) % 4
}

// A fill of none or one has no lead.
pub fn text_lead(chars: usize) -> u8
    ensures { (result ≡ text_lead chars) × (result < 3) }
{
    fill_for(chars).saturating_sub(1) as u8
}

// The quadlets of a text and its fill: one more where there is a fill.
pub fn text_count(chars: usize) -> usize
    ensures { (result ≡ text_count chars) × (4 * result < chars + 4) }
{
    chars.div_ceil(4)
}
