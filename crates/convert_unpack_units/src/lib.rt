// A binary's first units to text, into a lent buffer: each goes by value through a leaf from three bytes to four characters. The leaf
// of long streams looks up two characters at once.
#![tactic(auto)]

ghost use Rattle.std.specs.Prelude.{◌≡◌, List, ◌++◌, ℕ, ◌+◌, ◌*◌, ◌≤◌, ◌<◌, length, take, drop};
ghost use Rattle.base.specs.Digits.{digits_of};
ghost use Rattle.base.specs.Each.{UnitPut};
ghost use Rattle.format.specs.Alphabet.{character_table};
ghost use Rattle.format.specs.Units.{quadlet_of};
ghost use Rattle.convert_pairs.specs.Pairs.{CharacterPairs};
ghost use Rattle.convert_unpack_units.specs.Numbers.{four_at, Twelve};
ghost use Rattle.convert_unpack_units.specs.First.{Unpacked, unpacked_first};

// ---- a unit read, and written

fn triplet_at(s: &[u8], at: usize) -> [u8; 3]
    requires { at + 3 ≤ length s.now }
    ensures { result ≡ take 3 (drop at s.now) }
{
    [s[at], s[at + 1], s[at + 2]]
}

fn put_quadlet(d: &mut [u8], at: usize, q: [u8; 4])
    requires { at + 4 ≤ length d.old }
    ensures { d.new ≡ take at d.old ++ q ++ drop (at + 4) d.old }
{
    d[at] = q[0];
    d[at + 1] = q[1];
    d[at + 2] = q[2];
    d[at + 3] = q[3];
}

// ---- by pairs

fn four_bytes(s: &[u8], at: usize) -> u64
    requires { at + 4 ≤ length s.now }
    ensures { (result ≡ four_at s.now at) × (result < 4294967296) }
{
    ((u64::from(s[at]) * 256 + u64::from(s[at + 1])) * 256 + u64::from(s[at + 2])) * 256
        + u64::from(s[at + 3])
}

fn eight_bytes(s: &[u8], at: usize) -> u64
    requires { at + 8 ≤ length s.now }
    ensures { result ≡ four_at s.now at * 4294967296 + four_at s.now (at + 4) }
{
    four_bytes(s, at) * 4294967296 + four_bytes(s, at + 4)
}

fn bytes_of(n: u64) -> [u8; 3]
    ensures { result ≡ digits_of 256 3 n }
{
    [
        (n / 65536 % 256) as u8,
        (n / 256 % 256) as u8,
        (n % 256) as u8,
    ]
}

// The i-th unit, of which the number is known.
fn put_number(table: &[u16; 4096], d: &mut [u8], i: usize, n: u64)
    requires { CharacterPairs table.now × (4 * i + 4 ≤ length d.old) }
    ensures { d.new ≡ take (4 * i) d.old ++ quadlet_of (digits_of 256 3 n) ++ drop (4 * i + 4) d.old }
{
    let q = convert_unpack_quadlet::quadlet(table, bytes_of(n));
    put_quadlet(d, 4 * i, q);
}

// Four units of which the numbers are known, of eight bytes and of four.
fn put_four(table: &[u16; 4096], d: &mut [u8], i: usize, w: u64, v: u64)
    requires { CharacterPairs table.now × (4 * i + 16 ≤ length d.old) × (v < 4294967296) }
    ensures { (s o : List ℕ) → Twelve s i w v → Unpacked i s o d.old → Unpacked (i + 4) s o d.new }
{
    put_number(table, d, i, w / 1099511627776);
    put_number(table, d, i + 1, w / 65536 % 16777216);
    put_number(table, d, i + 2, w % 65536 * 256 + v / 16777216);
    put_number(table, d, i + 3, v % 16777216);
}

// Four units a turn; how many were done. The next four are read before the turn ends: a number that is carried over is one load,
// where one that is taken apart at once is a load for each byte.
fn unpack_by_pairs(table: &[u16; 4096], src: &[u8], dst: &mut [u8], n: usize) -> usize
    requires { CharacterPairs table.now × (4 ≤ n) × (3 * n ≤ length src.now) × (4 * n ≤ length dst.old) }
    ensures { (result ≤ n) × Unpacked result src.now dst.old dst.new }
{
    let mut i = 0;
    let mut w = eight_bytes(src, 0);
    let mut v = four_bytes(src, 8);
    while 7 < n - i {
        put_four(table, dst, i, w, v);
        i += 4;
        w = eight_bytes(src, 3 * i);
        v = four_bytes(src, 3 * i + 8);
    }
    i
}

// How many units go by pairs: none of a short stream, which is done before a table is.
fn unpack_most(src: &[u8], dst: &mut [u8], n: usize) -> usize
    requires { (3 * n ≤ length src.now) × (4 * n ≤ length dst.old) }
    ensures { (result ≤ n) × Unpacked result src.now dst.old dst.new }
{
    if n < 256 {
        return 0;
    }
    let table = convert_pairs::character_pairs();
    unpack_by_pairs(&table, src, dst, n)
}

// ---- one character at a look-up

// The i-th unit, where it is to stand.
fn put_by_characters(characters: &[u8; 64], src: &[u8], dst: &mut [u8], i: usize)
    requires { (characters.now ≡ character_table) × (3 * i + 3 ≤ length src.now) × (4 * i + 4 ≤ length dst.old) }
    ensures { UnitPut 3 4 quadlet_of src.now i dst.old dst.new }
{
    let q = units::quadlet(characters, triplet_at(src, 3 * i));
    put_quadlet(dst, 4 * i, q);
}

// The units from the first `done` on, n in all.
fn unpack_rest(src: &[u8], dst: &mut [u8], done: usize, n: usize)
    requires { (done ≤ n) × (3 * n ≤ length src.now) × (4 * n ≤ length dst.old) }
    ensures { (o : List ℕ) → Unpacked done src.now o dst.old → Unpacked n src.now o dst.new }
{
    let characters = alphabet::characters();
    for i in done..n {
        put_by_characters(&characters, src, dst, i);
    }
}

// ---- a stream

fn unpack(src: &[u8], dst: &mut [u8], n: usize)
    requires { (3 * n ≤ length src.now) × (4 * n ≤ length dst.old) }
    ensures { Unpacked n src.now dst.old dst.new }
{
    let done = unpack_most(src, dst, n);
    unpack_rest(src, dst, done, n);
}

// The first n units. Nothing is written where there are not so many, or no room for all of them.
pub fn first_units(src: &[u8], dst: &mut [u8], n: usize)
    ensures { dst.new ≡ unpacked_first n src.now dst.old }
{
    if src.len() / 3 < n {
        return;
    }
    if dst.len() / 4 < n {
        return;
    }
    unpack(src, dst, n);
}
