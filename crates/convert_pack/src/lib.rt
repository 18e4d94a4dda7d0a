// A text's units to binary, into a lent buffer: each goes by value through a leaf from four characters to three bytes. The leaf of
// long streams looks up two characters at once.
#![tactic(auto)]

ghost use Rattle.std.specs.Prelude.{◌≡◌, List, ◌++◌, map, ℕ, ◌+◌, ◌*◌, ◌≤◌, ◌<◌, length, take, drop};
ghost use Rattle.base.specs.Digits.{Below};
ghost use Rattle.base.specs.Each.{UnitPut};
ghost use Rattle.format.specs.Alphabet.{sextet_of, sextet_table};
ghost use Rattle.format.specs.Units.{text_sextets, triplet_of};
ghost use Rattle.format.specs.Conversion.{first_stranger};
ghost use Rattle.convert_pairs.specs.Pairs.{SextetPairs};
ghost use Rattle.convert_pack.specs.Left.{Packed, packed_left};
ghost use Rattle.convert_pack.specs.Places.{Places};

// ---- the leaf of long streams

// The places of two pairs of characters in the table, the first pair's in the low half. `-`, 45, is the least character of the
// alphabet: to take it off all four at once keeps them one load.
fn places(q: [u8; 4]) -> u32
    requires { Below 64 (map sextet_of q) }
    ensures { Places q result }
{
    u32::from(q[0]) + u32::from(q[1]) * 256 + u32::from(q[2]) * 65536 + u32::from(q[3]) * 16777216
        - 757935405
}

// Four characters as three bytes.
fn triplet(table: &[u16; 19790], q: [u8; 4]) -> [u8; 3]
    requires { SextetPairs table.now × Below 64 (map sextet_of q) }
    ensures { result ≡ triplet_of q }
{
    let p = places(q);
    let first = u32::from(table[(p % 65536) as usize]);
    let second = u32::from(table[(p / 65536) as usize]);
    let n = first * 4096 + second;
    [
        (n / 65536 % 256) as u8,
        (n / 256 % 256) as u8,
        (n % 256) as u8,
    ]
}

// ---- a unit read, and written

fn quadlet_at(s: &[u8], at: usize) -> [u8; 4]
    requires { at + 4 ≤ length s.now }
    ensures { result ≡ take 4 (drop at s.now) }
{
    [s[at], s[at + 1], s[at + 2], s[at + 3]]
}

fn put_triplet(d: &mut [u8], at: usize, t: [u8; 3])
    requires { at + 3 ≤ length d.old }
    ensures { d.new ≡ take at d.old ++ t ++ drop (at + 3) d.old }
{
    d[at] = t[0];
    d[at + 1] = t[1];
    d[at + 2] = t[2];
}

// ---- by pairs

// The i-th unit, where it is to stand.
fn put_by_pairs(table: &[u16; 19790], src: &[u8], dst: &mut [u8], i: usize)
    requires { SextetPairs table.now × (4 * i + 4 ≤ length src.now) × Below 64 (text_sextets src.now) × (3 * i + 3 ≤ length dst.old) }
    ensures { UnitPut 4 3 triplet_of src.now i dst.old dst.new }
{
    let t = triplet(table, quadlet_at(src, 4 * i));
    put_triplet(dst, 3 * i, t);
}

fn put_four(table: &[u16; 19790], src: &[u8], dst: &mut [u8], i: usize)
    requires { SextetPairs table.now × (4 * i + 16 ≤ length src.now) × Below 64 (text_sextets src.now) × (3 * i + 12 ≤ length dst.old) }
    ensures { (o : List ℕ) → Packed i src.now o dst.old → Packed (i + 4) src.now o dst.new }
{
    put_by_pairs(table, src, dst, i);
    put_by_pairs(table, src, dst, i + 1);
    put_by_pairs(table, src, dst, i + 2);
    put_by_pairs(table, src, dst, i + 3);
}

// Four units a turn, which saves some of the loop's own steps; how many were done.
fn pack_by_pairs(table: &[u16; 19790], src: &[u8], dst: &mut [u8], n: usize) -> usize
    requires { SextetPairs table.now × (4 * n ≤ length src.now) × Below 64 (text_sextets src.now) × (3 * n ≤ length dst.old) }
    ensures { (result ≤ n) × Packed result src.now dst.old dst.new }
{
    let mut i = 0;
    while 3 < n - i {
        put_four(table, src, dst, i);
        i += 4;
    }
    i
}

// How many units go by pairs: none of a short stream, which is done before a table is.
fn pack_most(src: &[u8], dst: &mut [u8], n: usize) -> usize
    requires { (4 * n ≤ length src.now) × Below 64 (text_sextets src.now) × (3 * n ≤ length dst.old) }
    ensures { (result ≤ n) × Packed result src.now dst.old dst.new }
{
    if n < 2048 {
        return 0;
    }
    let table = convert_pairs::sextet_pairs();
    pack_by_pairs(&table, src, dst, n)
}

// ---- one character at a look-up

// The i-th unit, where it is to stand.
fn put_by_values(values: &[u8; 256], src: &[u8], dst: &mut [u8], i: usize)
    requires { (values.now ≡ sextet_table) × (4 * i + 4 ≤ length src.now) × (3 * i + 3 ≤ length dst.old) }
    ensures { UnitPut 4 3 triplet_of src.now i dst.old dst.new }
{
    let t = units::triplet(values, quadlet_at(src, 4 * i));
    put_triplet(dst, 3 * i, t);
}

// The units from the first `done` on, n in all.
fn pack_rest(src: &[u8], dst: &mut [u8], done: usize, n: usize)
    requires { (done ≤ n) × (4 * n ≤ length src.now) × (3 * n ≤ length dst.old) }
    ensures { (o : List ℕ) → Packed done src.now o dst.old → Packed n src.now o dst.new }
{
    let values = alphabet::sextets();
    for i in done..n {
        put_by_values(&values, src, dst, i);
    }
}

// ---- a stream

fn pack(src: &[u8], dst: &mut [u8], n: usize)
    requires { (4 * n ≤ length src.now) × Below 64 (text_sextets src.now) × (3 * n ≤ length dst.old) }
    ensures { Packed n src.now dst.old dst.new }
{
    let done = pack_most(src, dst, n);
    pack_rest(src, dst, done, n);
}

// Where the first stranger is, or the length. The units are written where there is none and there is room for all.
pub fn to_binary(src: &[u8], dst: &mut [u8]) -> usize
    ensures value { result ≡ first_stranger src.now }
    ensures dst_after { dst.new ≡ packed_left src.now dst.old }
{
    let known = alphabet_search::first_stranger(src);
    if known < src.len() {
        return known;
    }
    let n = src.len() / 4;
    if dst.len() / 3 < n {
        return known;
    }
    pack(src, dst, n);
    known
}
