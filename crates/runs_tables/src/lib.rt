// The tables by which a first unit alone is told: values of characters, classes of a group's letter, sizes and zero bits of the fixed codes.
#![tactic(auto)]

ghost use Rattle.std.specs.Prelude.{◌≡◌};
ghost use Rattle.runs.specs.Plain.{plain_table, class_table};
ghost use Rattle.runs_tables.specs.Lent.{Lent};

const ROWS: [u16; 192] = [
    1035, 1035, 1035, 1035, 1035, 1035, 1035, 1035, 1035, 1035, 1043, 1043, 1025, 1027, 1035, 1055,
    1035, 1026, 1028, 1029, 1030, 1, 1025, 4097, 4098, 4099, 1035, 0, 0, 0, 0, 0, 0, 0, 0, 0, 0, 0,
    0, 0, 0, 0, 0, 0, 0, 0, 0, 0, 0, 0, 0, 0, 0, 0, 0, 0, 0, 0, 0, 0, 0, 0, 0, 0, 262, 278, 278,
    278, 278, 278, 278, 258, 278, 1, 4097, 2, 4098, 3, 4099, 0, 0, 0, 0, 0, 0, 0, 0, 0, 0, 0, 0, 0,
    0, 0, 0, 0, 0, 0, 0, 0, 0, 0, 0, 0, 0, 0, 0, 0, 0, 0, 0, 0, 0, 0, 0, 0, 0, 0, 0, 0, 0, 0, 0, 0,
    0, 0, 0, 0, 4108, 4108, 4116, 4116, 4135, 4098, 4105, 4121, 4108, 4108, 4097, 4097, 4097, 4099,
    4097, 4097, 0, 0, 0, 0, 0, 0, 0, 0, 0, 0, 0, 0, 0, 0, 0, 0, 0, 0, 0, 0, 0, 0, 0, 0, 0, 0, 0, 0,
    0, 0, 0, 0, 0, 0, 0, 0, 0, 0, 0, 0, 0, 0, 0, 0, 0, 0, 0, 0,
];

// Of each one-letter code, of each code `0` and a letter, and of each `1AA` and a letter: the size in units, and 64 times the number
// below which the sextet behind the code has the code's zero bits.
pub fn rows() -> [u16; 192]
    ensures { result ≡ plain_table }
{
    ROWS
}

const CLASSES: [u8; 256] = [
    3, 3, 3, 3, 3, 3, 3, 3, 3, 3, 3, 3, 3, 3, 3, 3, 3, 3, 3, 3, 3, 3, 3, 3, 3, 3, 3, 3, 3, 3, 3, 3,
    3, 3, 3, 3, 3, 3, 3, 3, 3, 3, 3, 3, 3, 3, 3, 3, 3, 3, 3, 3, 3, 3, 3, 3, 3, 3, 3, 3, 3, 3, 3, 3,
    3, 1, 1, 1, 0, 0, 0, 0, 0, 0, 0, 2, 2, 0, 0, 0, 0, 0, 0, 0, 0, 0, 0, 0, 0, 0, 0, 3, 3, 3, 3, 3,
    3, 0, 0, 0, 3, 3, 3, 3, 3, 3, 3, 3, 3, 3, 3, 3, 3, 3, 3, 3, 3, 3, 3, 3, 3, 3, 3, 3, 3, 3, 3, 3,
    3, 3, 3, 3, 3, 3, 3, 3, 3, 3, 3, 3, 3, 3, 3, 3, 3, 3, 3, 3, 3, 3, 3, 3, 3, 3, 3, 3, 3, 3, 3, 3,
    3, 3, 3, 3, 3, 3, 3, 3, 3, 3, 3, 3, 3, 3, 3, 3, 3, 3, 3, 3, 3, 3, 3, 3, 3, 3, 3, 3, 3, 3, 3, 3,
    3, 3, 3, 3, 3, 3, 3, 3, 3, 3, 3, 3, 3, 3, 3, 3, 3, 3, 3, 3, 3, 3, 3, 3, 3, 3, 3, 3, 3, 3, 3, 3,
    3, 3, 3, 3, 3, 3, 3, 3, 3, 3, 3, 3, 3, 3, 3, 3, 3, 3, 3, 3, 3, 3, 3, 3, 3, 3, 3, 3, 3, 3, 3, 3,
];

// Of each character as a group's letter: 0 where the master table frames the items, 1 where 7 is asked of the first of them, 2 where the
// indexed table frames them (`K` and `L`), 3 for everything else.
pub fn classes() -> [u8; 256]
    ensures { result ≡ class_table }
{
    CLASSES
}

// The three together. A caller names them once and lends them, since naming a constant table copies it.
#[derive(Clone, Copy)]
pub struct Tables {
    // of each character its sextet, or a mark outside the alphabet
    pub values: [u8; 256],
    // of each character its class as a group's letter
    pub classes: [u8; 256],
    // of each code with a short header its size and zero bits
    pub rows: [u16; 192],
}

impl Tables {
    pub fn new() -> Tables
        ensures { Lent result }
    {
        Tables {
            values: alphabet::sextets(),
            classes: classes(),
            rows: rows(),
        }
    }
}
