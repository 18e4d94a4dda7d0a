// The URL-safe Base64 alphabet: characters to sextets and back.
#![tactic(auto)]

ghost use Rattle.std.specs.Prelude.{◌≡◌, get_or};
ghost use Rattle.format.specs.Alphabet.{sextet_of, char_of, sextet_table, character_table};

// A character is named where a run of the alphabet begins or ends, and where ordinary Base64 has one that is a stranger here: 65.
const SEXTETS: [u8; 256] = [
    64, 64, 64, 64, 64, 64, 64, 64, 64, 64, 64, 64, 64, 64, 64, 64, 64, 64, 64, 64, 64, 64, 64, 64,
    64, 64, 64, 64, 64, 64, 64, 64, 64, 64, 64, 64, 64, 64, 64, 64, 64, 64, 64, 65, // +
    64, 62, // -
    64, 65, // /
    52, // 0
    53, 54, 55, 56, 57, 58, 59, 60, 61, // 9
    64, 64, 64, 65, // =
    64, 64, 64, 0, // A
    1, 2, 3, 4, 5, 6, 7, 8, 9, 10, 11, 12, 13, 14, 15, 16, 17, 18, 19, 20, 21, 22, 23, 24, 25, // Z
    64, 64, 64, 64, 63, // _
    64, 26, // a
    27, 28, 29, 30, 31, 32, 33, 34, 35, 36, 37, 38, 39, 40, 41, 42, 43, 44, 45, 46, 47, 48, 49, 50,
    51, // z
    64, 64, 64, 64, 64, 64, 64, 64, 64, 64, 64, 64, 64, 64, 64, 64, 64, 64, 64, 64, 64, 64, 64, 64,
    64, 64, 64, 64, 64, 64, 64, 64, 64, 64, 64, 64, 64, 64, 64, 64, 64, 64, 64, 64, 64, 64, 64, 64,
    64, 64, 64, 64, 64, 64, 64, 64, 64, 64, 64, 64, 64, 64, 64, 64, 64, 64, 64, 64, 64, 64, 64, 64,
    64, 64, 64, 64, 64, 64, 64, 64, 64, 64, 64, 64, 64, 64, 64, 64, 64, 64, 64, 64, 64, 64, 64, 64,
    64, 64, 64, 64, 64, 64, 64, 64, 64, 64, 64, 64, 64, 64, 64, 64, 64, 64, 64, 64, 64, 64, 64, 64,
    64, 64, 64, 64, 64, 64, 64, 64, 64, 64, 64, 64, 64,
];

const CHARACTERS: [u8; 64] = [
    65, 66, 67, 68, 69, 70, 71, 72, 73, 74, 75, 76, 77, 78, 79, 80, 81, 82, 83, 84, 85, 86, 87, 88,
    89, 90, 97, 98, 99, 100, 101, 102, 103, 104, 105, 106, 107, 108, 109, 110, 111, 112, 113, 114,
    115, 116, 117, 118, 119, 120, 121, 122, 48, 49, 50, 51, 52, 53, 54, 55, 56, 57, 45, 95,
];

// The value of each byte; for one outside the alphabet a mark, 65 for `+`, `/` and `=`, 64 for any other. A caller that reads many characters names the table once and lends it.
pub fn sextets() -> [u8; 256]
    ensures { result ≡ sextet_table }
{
    SEXTETS
}

// The character of each sextet.
pub fn characters() -> [u8; 64]
    ensures { result ≡ character_table }
{
    CHARACTERS
}

// The look-up: a character's entry in a table that is lent, which is its value where the table is `sextets`.
pub fn value(values: &[u8; 256], c: u8) -> u8
    ensures value { result ≡ get_or values.now c 0 }
    ensures value_2 { values.now ≡ sextet_table → result ≡ sextet_of c }
{
    values[usize::from(c)]
}

// The value of one character, or its mark.
pub fn sextet(c: u8) -> u8
    ensures { result ≡ sextet_of c }
{
    let values = sextets();
    value(&values, c)
}

// The character of a sextet; 0, which is no character of the alphabet, for a number from 64 on.
pub fn character(v: u8) -> u8
    ensures { result ≡ char_of v }
{
    if v < 64 {
        let chars = characters();
        chars[usize::from(v)]
    } else {
        0
    }
}
