// The designation that stands at a place of a text, by one search of the table: one number, or 0.
ghost use Rattle.std.specs.Prelude.{◌≡◌, cond, ◌&&◌, [], ◌∷◌, ◌≤◌, ◌+◌, ◌*◌, eqb};
ghost use Rattle.jp2_read.specs.Escapes.{code_of, code_among, code_at, g0_after, g2_after, sends};

use jp2::Designation;

// Two bytes in one number, so that they are compared at once.
fn joined(a: u8, b: u8) -> u32
    ensures { result ≡ a * 256 + b }
{
    (a as u32) * 256 + (b as u32)
}

fn both(s: bool, t: bool) -> bool
    ensures { result ≡ (s && t) }
{
    if s {
        return t;
    }
    false
}

// What a row sends after ESC starts with two bytes, and then goes on with c, or has just three bytes. Every test is
// made, for a choice without a branch.
fn is_sent(d: Designation, two: u32, c: u8, long: bool) -> bool
    ensures { result ≡ sends d two c long }
{
    let escape = d.escape;
    let front = joined(escape[1], escape[2]);
    if long {
        return both(front == two, escape[3] == c);
    }
    both(front == two, d.length == 3)
}

// A row in one number, so that the search takes one choice a row: the set's number, where it goes, and the length.
fn code(d: Designation) -> u32
    requires { d.length ≤ 4 }
    ensures { result ≡ code_of d }
{
    ((d.number as u32) * 8 + (d.to as u32)) * 8 + (d.length as u32)
}

fn chosen(t: bool, a: u32, b: u32) -> u32
    ensures { result ≡ cond t a b }
{
    if t {
        return a;
    }
    b
}

// The row of the table that is sent as ESC and these three bytes, or the first two of them; or 0. Where ( is the second
// it has four bytes, so that a length is known before the row is.
fn found(a: u8, b: u8, c: u8, long: bool) -> u32
    requires { long ≡ eqb b 40 }
    ensures { result ≡ code_among 9 (27 ∷ a ∷ b ∷ c ∷ []) }
{
    let two = joined(a, b);
    let table = jp2::all_rows();
    let mut r: u32 = 0;
    for i in 0..9 {
        let d = table[i];
        let v = code(d);
        r = chosen(is_sent(d, two, c, long), v, r);
    }
    r
}

// The designation at a place, or 0; 0 too where fewer than four bytes are left.
pub fn row_at(text: &[u8], at: usize) -> u32
    ensures { result ≡ code_at text.now at }
{
    if text.len() <= at {
        return 0;
    }
    if text[at] != 27 {
        return 0;
    }
    if text.len() < at + 4 {
        return 0;
    }
    let y = text[at + 2];
    found(text[at + 1], y, text[at + 3], y == 40)
}

// G0 and G2 after it.
pub fn g0_after(g0: u16, d: u32) -> u16
    ensures { result ≡ g0_after g0 d }
{
    if d / 8 % 8 == 2 {
        return g0;
    }
    (d / 64 % 65536) as u16
}

pub fn g2_after(g2: u16, d: u32) -> u16
    ensures { result ≡ g2_after g2 d }
{
    if d / 8 % 8 == 2 {
        return (d / 64 % 65536) as u16;
    }
    g2
}
