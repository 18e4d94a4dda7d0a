// The format's types. What they mean is defined in specs/, in document 01's order; there is no code here.
#![tactic(auto)]

// The form of a stream.
#[derive(Clone, Copy)]
pub enum Form {
    Text,
    Binary,
}

// A place or a length in a text stream, in characters.
#[derive(Clone, Copy)]
pub struct TextOffset(pub usize);

// A place or a length in a binary stream, in bytes.
#[derive(Clone, Copy)]
pub struct BinaryOffset(pub usize);

// Why a call refuses: the number of the reason, and where; a place is told in the call's own words.
#[derive(Clone, Copy)]
pub struct Refusal<P> {
    pub number: u8,
    pub place: P,
}

// A row of the code registry: a code of so many characters, the last of which is a letter's sextet (A is 0, a is 26).
#[derive(Clone, Copy)]
pub struct CodeRow {
    pub chars: u8,
    pub letter: u8,
    // full size in text
    pub size: u8,
    // pad size: 1, 2 or 0
    pub pad: u8,
    // zero lead bytes
    pub lead: u8,
    // tag characters; 0 for a code with a raw value
    pub tag: u8,
}

// A row of the indexed code table: a code of so many characters, a letter or a selector and a letter, both by their sextets.
#[derive(Clone, Copy)]
pub struct IndexRow {
    pub chars: u8,
    // `0`, `2` or `3`; 0 where the letter stands alone
    pub selector: u8,
    pub letter: u8,
    // full size in text
    pub size: u8,
    // digits of index and of ondex, which stand behind the code
    pub index: u8,
    pub ondex: u8,
    // zero pad bits before the raw bytes
    pub zeros: u8,
    // 1 for a "current only" code
    pub current: u8,
}

// What a header says of its item. The code is the kind with the header's length, which tells small from large.
#[derive(Clone, Copy)]
pub enum Kind {
    Fixed(CodeRow),
    // letter: the variable type; count: the units behind the header
    Variable { letter: u8, lead: u8, count: usize },
    Group { letter: u8 },
    Genus,
    Indexed(IndexRow),
}

// What the first unit says: a header of one unit, or of two, with the item's full size in units, or what a second unit completes.
#[derive(Clone, Copy)]
pub enum Opening {
    Unknown,
    Short { kind: Kind, size: usize },
    Long { kind: Kind, size: usize },
    LargeVariable { letter: u8, lead: u8 },
    // digit: the first of the count's five
    LargeGroup { letter: u8, digit: u8 },
    Version,
}

// What framing finds: an item with its header and full size in units, or a number and a place in sextets from its start.
#[derive(Clone, Copy)]
pub enum Framed {
    Item {
        kind: Kind,
        head: usize,
        size: usize,
    },
    Unframed {
        number: u8,
        place: usize,
    },
}

// What judging an item finds; the place is counted in sextets or in a stream's elements, as the definition says.
#[derive(Clone, Copy)]
pub enum Verdict {
    Accepted,
    Refused { number: u8, place: usize },
}

// A primitive's code as a caller names it. Letters are characters of the alphabet.
#[derive(Clone, Copy)]
pub enum Code {
    // a code of 1, 2 or 4 characters: a letter, `0` and a letter, `1AA` and a letter
    Fixed { chars: u8, letter: u8 },
    // a variable type, with the small or the large header
    Small { letter: u8 },
    Large { letter: u8 },
}

// A primitive that was read, in either form: its code, its full size in units, where its raw value starts in the item's binary form,
// how many bytes the raw value has, how many characters a text (type `A`, which has no raw value) and how many tag characters there are.
#[derive(Clone, Copy)]
pub struct Primitive {
    pub code: Code,
    pub size: usize,
    pub start: BinaryOffset,
    pub raw: usize,
    pub text: usize,
    pub tags: usize,
}

// What reading a primitive answers, with its tag characters, unused places 0.
#[derive(Clone, Copy)]
pub struct PrimitiveRead<P> {
    pub found: Result<Primitive, Refusal<P>>,
    pub tag: [u8; 11],
}

// An indexed item's code as a caller names it, by characters of the alphabet: a selector, 0 where the letter stands alone, and a letter.
#[derive(Clone, Copy)]
pub struct IndexCode {
    pub selector: u8,
    pub letter: u8,
}

// An indexed item that was read, in either form: its code, its full size in units, where its raw value starts in the item's binary form,
// how many bytes the raw value has, index and ondex.
#[derive(Clone, Copy)]
pub struct IndexedItem {
    pub code: IndexCode,
    pub size: usize,
    pub start: BinaryOffset,
    pub raw: usize,
    pub index: usize,
    pub ondex: usize,
}
