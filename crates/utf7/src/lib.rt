// UTF-7 (RFC 2152) as document 01 states it: definitions, laws, and the tests that tell its sets apart.
#![tactic(auto)]

ghost use Rattle.std.specs.Prelude.{◌≡◌, true, ◌+◌, ◌≤◌, length, drop};
ghost use Rattle.answer.specs.Ahead.{Ahead};
ghost use Rattle.utf7.specs.declared.Style.TheVariants.{Header, Name};
ghost use Rattle.utf7.specs.Sets.{member, line_blanks, direct, sign_of, last_of, own};
ghost use Rattle.utf7.specs.Writing.{IsUnit, first_over};

// "Writing has two styles", and mailbox names are a third.
#[derive(Clone, Copy)]
pub enum Style {
    Header,
    Body,
    Name,
}

// Outside a run the byte stands for itself.
pub fn is_direct(u: u32) -> bool
    ensures { result ≡ direct u }
{
    if 125 < u {
        return false;
    }
    if 92 < u {
        return true;
    }
    if 91 < u {
        return false;
    }
    if 43 < u {
        return true;
    }
    if 42 < u {
        return false;
    }
    if 31 < u {
        return true;
    }
    is_line_blank(u)
}

// The same of a byte. Every test is made, so that it compiles to no branch, and in a loop over a block to vector code.
pub fn is_direct_byte(b: u8) -> bool
    ensures { result ≡ direct b }
{
    (32 <= b) & (b <= 125) & (b != b'+') & (b != b'\\') | (b == 9) | (b == 10) | (b == 13)
}

// The unit is written as itself in the style.
pub fn is_own(style: Style, u: u32) -> bool
    ensures { result ≡ own style u }
{
    match style {
        Style::Header => is_header(u),
        Style::Body => is_direct(u),
        Style::Name => is_name(u),
    }
}

// What shifts.
pub fn sign_of(style: Style) -> u32
    ensures { result ≡ sign_of style }
{
    match style {
        Style::Header => 43,
        Style::Body => 43,
        Style::Name => 38,
    }
}

// The last letter of the alphabet.
pub fn last_of(style: Style) -> u8
    ensures { result ≡ last_of style }
{
    match style {
        Style::Header => 47,
        Style::Body => 47,
        Style::Name => 44,
    }
}

// Tab, LF, CR.
fn is_line_blank(u: u32) -> bool
    ensures { result ≡ member line_blanks u }
{
    if u == 9 {
        return true;
    }
    if u == 10 {
        return true;
    }
    u == 13
}

fn is_header(u: u32) -> bool
    ensures { result ≡ own Header u }
{
    if 122 < u {
        return false;
    }
    if 96 < u {
        return true;
    }
    if 90 < u {
        return false;
    }
    if 64 < u {
        return true;
    }
    if 63 < u {
        return false;
    }
    if 62 < u {
        return true;
    }
    if 58 < u {
        return false;
    }
    if 43 < u {
        return true;
    }
    if 41 < u {
        return false;
    }
    if 38 < u {
        return true;
    }
    if 32 < u {
        return false;
    }
    if 31 < u {
        return true;
    }
    is_line_blank(u)
}

fn is_name(u: u32) -> bool
    ensures { result ≡ own Name u }
{
    if 126 < u {
        return false;
    }
    if u < 32 {
        return false;
    }
    u != 38
}

// Whether the 128 cells from a place on are units: joined by their bits, none is above the limit.
fn units_ahead(cells: &[u32], i: usize) -> bool
    requires { i + 128 ≤ length cells.now }
    ensures { result ≡ true → Ahead IsUnit cells.now i 128 }
{
    let mut all: u32 = 0;
    for k in 0..128 {
        all = all | cells[i + k];
    }
    all <= 65535
}

// The index of the first cell that is no unit, or the length.
pub fn first_over(cells: &[u32]) -> usize
    ensures { result ≡ first_over cells.now }
{
    let mut i: usize = 0;
    while 128 <= cells.len() - i {
        if !units_ahead(cells, i) {
            return first_over_from(cells, i);
        }
        i += 128;
    }
    first_over_from(cells, i)
}

// The same, where the cells before a place are units.
fn first_over_from(cells: &[u32], from: usize) -> usize
    requires { (from ≤ length cells.now) × (from + first_over (drop from cells.now) ≡ first_over cells.now) }
    ensures { result ≡ first_over cells.now }
{
    for i in from..cells.len() {
        if 65535 < cells[i] {
            return i;
        }
    }
    cells.len()
}
