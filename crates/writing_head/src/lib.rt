// What stands before the raw value or the text of an item, as its first nine bytes: code, prepad and tag characters, or selector, type
// and count. Then zeros. Of a code that the lengths do not fit nothing is said.
#![tactic(auto)]

ghost use Rattle.std.specs.Prelude.{◌≡◌, map, ◌+◌, ◌<◌, ◌≤◌, ◌%◌, eqb, take};
ghost use Rattle.std.proofs.Math.Seq.{paste};
ghost use Rattle.base.specs.Pick.{pick};
ghost use Rattle.base.specs.Each.{each};
ghost use Rattle.format.specs.Alphabet.{sextet_of};
ghost use Rattle.format.specs.Units.{bytes_of};
ghost use Rattle.format.specs.Registry.{prepad_of};
ghost use Rattle.laws.specs.Registry.{Sound};
ghost use Rattle.writing_code.specs.Names.{as_named, Able};
ghost use Rattle.writing_head.specs.Heads.{code_head, row_head, variable_head, head_sextets, head_bytes};

use format::CodeRow;
use writing_code::Named;

// ---- the sextets, and then zeros

// `_` where there is a prepad.
fn prepad_sextet(prepad: u32) -> u8
    ensures { result ≡ pick (eqb prepad 0) 0 63 }
{
    if prepad == 0 { 0 } else { 63 }
}

// The code's characters and its prepad.
fn code_head(c: CodeRow, prepad: u32) -> [u8; 12]
    ensures { Sound c → prepad ≡ prepad_of c → result ≡ code_head c }
{
    let l = c.letter;
    let p = prepad_sextet(prepad);
    if c.chars == 1 {
        return [l, p, 0, 0, 0, 0, 0, 0, 0, 0, 0, 0];
    }
    if c.chars == 2 {
        return [52, l, p, 0, 0, 0, 0, 0, 0, 0, 0, 0];
    }
    [53, 0, 0, l, p, 0, 0, 0, 0, 0, 0, 0]
}

fn put_tag(cs: [u8; 12], at: usize, tag: [u8; 11], tags: usize) -> [u8; 12]
    requires { (at + tags ≤ 12) × (tags ≤ 11) }
    ensures { result ≡ paste cs at (map sextet_of tag) tags }
{
    let values = alphabet::sextets();
    let mut out = cs;
    for i in 0..tags {
        out[at + i] = alphabet::value(&values, tag[i]);
    }
    out
}

// A row's tag characters have room; of any other nothing is written.
fn row_head(c: CodeRow, tag: [u8; 11], tags: usize) -> [u8; 12]
    ensures { Sound c → tags ≡ c.tag → result ≡ row_head c (take tags tag) }
{
    let prepad = judging_header::prepad_of(c);
    let cs = code_head(c, prepad);
    let at = usize::from(c.chars) + prepad as usize;
    if 11 < tags {
        return cs;
    }
    if 12 < at + tags {
        return cs;
    }
    put_tag(cs, at, tag, tags)
}

// The last digit of a count.
fn digit(n: usize) -> u8
    ensures { (result ≡ n % 64) × (result < 64) }
{
    (n % 64) as u8
}

// Selector, type and count; a small form's count has two digits.
fn variable_head(letter: u8, head: u8, lead: u8, n: usize) -> [u8; 12]
    requires { lead < 3 }
    ensures { (head ≡ 1 → n ≤ 4095) → result ≡ variable_head letter head lead n }
{
    let d = digit(n);
    let c = digit(n / 64);
    if head == 1 {
        return [56 + lead, letter, c, d, 0, 0, 0, 0, 0, 0, 0, 0];
    }
    let b = digit(n / 4096);
    let a = digit(n / 262144);
    [59 + lead, 0, 0, letter, a, b, c, d, 0, 0, 0, 0]
}

fn head_of(n: Named, tag: [u8; 11], tags: usize, raw: usize) -> [u8; 12]
    ensures { Able (as_named n) tags raw → result ≡ head_sextets (as_named n) (take tags tag) raw }
{
    match n {
        Named::Unknown => [0; 12],
        Named::Row(c) => row_head(c, tag, tags),
        Named::Variable { letter, head } => variable_head(
            letter,
            head,
            writing_sizes::lead_for(raw),
            writing_sizes::count_for(raw),
        ),
        Named::Textual { head } => variable_head(
            0,
            head,
            writing_sizes::text_lead(raw),
            writing_sizes::text_count(raw),
        ),
    }
}

// ---- as bytes

// Twelve sextets as nine bytes.
fn pack3(cs: [u8; 12]) -> [u8; 9]
    ensures { result ≡ each 4 bytes_of 3 cs }
{
    let a = units::pack([cs[0], cs[1], cs[2], cs[3]]);
    let b = units::pack([cs[4], cs[5], cs[6], cs[7]]);
    let c = units::pack([cs[8], cs[9], cs[10], cs[11]]);
    [a[0], a[1], a[2], b[0], b[1], b[2], c[0], c[1], c[2]]
}

pub fn head_bytes(n: Named, tag: [u8; 11], tags: usize, raw: usize) -> [u8; 9]
    ensures { Able (as_named n) tags raw → result ≡ head_bytes (as_named n) (take tags tag) raw }
{
    let cs = head_of(n, tag, tags, raw);
    pack3(cs)
}
