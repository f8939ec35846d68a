// Document 02, order 12: a second reader of ISO-2022-JP-2, for texts of at most 512 bytes. It is written from RFC 1554,
// "Formal Syntax", to be read beside it: a function for each production. It shares no code with the main reader.
#![tactic(auto)]

ghost use Rattle.std.specs.Prelude.{◌≡◌, true, ◌&&◌, ℕ, ◌+◌, ◌*◌, ◌<◌, length, leb};
ghost use Rattle.answer.specs.Answer.{in_numbers, number_of};
ghost use Rattle.answer.specs.Bytes.{bytes};
ghost use Rattle.answer.specs.Output.{leaves, filled};
ghost use Rattle.reading.specs.Reading.{closing, verdict_of, reading};
ghost use Rattle.reading.specs.Inner.{Filling};
ghost use Rattle.jp2.specs.Rule.{state, plain, graphic, cell_of, ends_in, jp2};
ghost use Rattle.jp2.specs.Writable.{pair_set, ascii};
ghost use Rattle.jp2_plain.specs.Plain.{plain_into};
ghost use Rattle.jp2_plain.specs.Inner.{single, byte_at, fault_at, g2_after, Stands, Finds};

use answer::{Answer, Refusal, Refused};

// What stands at a place between cells.
#[derive(Clone, Copy)]
enum Item {
    // a designation: the set's number, and the place behind it
    ToSingles(u16, usize),
    ToPairs(u16, usize),
    ToG2(u16, usize),
    // a cell, the place behind it, and the set that is then in G2
    Cell(u32, usize, u16),
    // a fault, by its place
    Fault(Refusal, usize),
}

// A buffer for the cells of a text.
fn blank() -> [u32; 512]
    ensures { length result ≡ 512 }
{
    [0; 512]
}

// Reads a text into an output. It is read twice: into a buffer, to tell whether it is accepted, and then into the
// output.
pub fn read(text: &[u8], out: &mut [u32]) -> Answer
    ensures { leaves result out.new ≡ plain_into text.now out.old }
{
    if 512 < text.len() {
        return Err(Refused(Refusal::OverLimit, 512));
    }
    let mut cells = blank();
    let found = singles(text, 0, 6, 0, 0, &mut cells);
    match found {
        Err(_) => found,
        Ok(n) => {
            if out.len() < n {
                return Err(Refused(Refusal::NoRoom, n));
            }
            singles(text, 0, 6, 0, 0, out)
        }
    }
}

// A stretch of single bytes, and all that follows it: *(single-byte-char / g2-desig-seq / single-shift-char). It stands
// at a place, with sets in G0 and G2, after some cells. The designation of a set of pairs hands over.
#[cycle(pairs_singles)]
fn singles(text: &[u8], from: usize, set: u16, shift: u16, count: usize, out: &mut [u32]) -> Answer
    requires filling { Filling jp2 text.now from (state set shift plain) count out.old out.old }
    requires set_value { single set ≡ true }
    ensures result_value { in_numbers result ≡ verdict_of (reading jp2 text.now) }
    ensures out_after { out.new ≡ filled (reading jp2 text.now).cells out.old }
{
    let mut at = from;
    let mut g0 = set;
    let mut g2 = shift;
    let mut n = count;
    // an item has one to four bytes: no `for` moves so
    while at < text.len() {
        match single_item(text, at, g0, g2) {
            Item::ToSingles(set, next) => {
                g0 = set;
                at = next;
            }
            Item::ToPairs(set, next) => return pairs(text, next, set, g2, n, out),
            Item::ToG2(set, next) => {
                g2 = set;
                at = next;
            }
            Item::Cell(value, next, left) => {
                out[n] = value;
                n += 1;
                g2 = left;
                at = next;
            }
            Item::Fault(why, place) => return Err(Refused(why, place)),
        }
    }
    ends(g0, at, n)
}

// A stretch of pairs, and all that follows it: *((one-of-94 one-of-94) / g2-desig-seq / single-shift-char). The
// designation of a set of single bytes hands back.
#[cycle(pairs_singles)]
fn pairs(text: &[u8], from: usize, set: u16, shift: u16, count: usize, out: &mut [u32]) -> Answer
    requires filling { Filling jp2 text.now from (state set shift plain) count out.old out.old }
    requires set_value { pair_set set ≡ true }
    ensures result_value { in_numbers result ≡ verdict_of (reading jp2 text.now) }
    ensures out_after { out.new ≡ filled (reading jp2 text.now).cells out.old }
{
    let mut at = from;
    let mut g0 = set;
    let mut g2 = shift;
    let mut n = count;
    // an item has one to four bytes: no `for` moves so
    while at < text.len() {
        match pair_item(text, at, g0, g2) {
            Item::ToSingles(set, next) => return singles(text, next, set, g2, n, out),
            Item::ToPairs(set, next) => {
                g0 = set;
                at = next;
            }
            Item::ToG2(set, next) => {
                g2 = set;
                at = next;
            }
            Item::Cell(value, next, left) => {
                out[n] = value;
                n += 1;
                g2 = left;
                at = next;
            }
            Item::Fault(why, place) => return Err(Refused(why, place)),
        }
    }
    ends(g0, at, n)
}

// The end of the text, after n cells: "A text ends with ASCII in G0."
fn ends(g0: u16, at: usize, n: usize) -> Answer
    ensures { in_numbers result ≡ closing (ends_in at (state g0 0 plain)) n }
{
    if g0 == 6 {
        return Ok(n);
    }
    Err(Refused(Refusal::NotAscii, at))
}

// single-byte-char, or an escape: "Bytes 33 to 126 carry the G0 number; 0 to 32 and 127 always carry 6."
fn single_item(text: &[u8], at: usize, g0: u16, g2: u16) -> Item
    requires at_in_bounds { at < length text.now }
    requires g0_value { single g0 ≡ true }
    ensures { Finds text.now at g0 g2 result }
{
    let b = byte_at(text, at);
    if b == 27 {
        return escape(text, at, g2);
    }
    if !is_single_byte_char(b) {
        return Item::Fault(fault(text, at, Refusal::StrayByte), at);
    }
    let left = g2_after(g2, b, byte_at(text, at + 1));
    if is_one_of_94(b) {
        return Item::Cell(cell(g0, b as u16), at + 1, left);
    }
    Item::Cell(cell(6, b as u16), at + 1, left)
}

// one-of-94 one-of-94, or an escape
fn pair_item(text: &[u8], at: usize, g0: u16, g2: u16) -> Item
    requires at_in_bounds { at < length text.now }
    requires g0_value { pair_set g0 ≡ true }
    ensures { Finds text.now at g0 g2 result }
{
    let a = byte_at(text, at);
    if a == 27 {
        return escape(text, at, g2);
    }
    if !is_one_of_94(a) {
        return Item::Fault(fault(text, at, Refusal::StrayByte), at);
    }
    let b = byte_at(text, at + 1);
    if !is_one_of_94(b) {
        return Item::Fault(fault(text, at + 1, Refusal::StrayByte), at + 1);
    }
    Item::Cell(cell(g0, pair(a, b)), at + 2, g2)
}

// What an ESC begins.
fn escape(text: &[u8], at: usize, g2: u16) -> Item
    requires { Stands text.now at (bytes "␛") }
    ensures { (g0 : ℕ) → Finds text.now at g0 g2 result }
{
    let b = byte_at(text, at + 1);
    match b {
        b'(' => single_byte_seq(text, at),
        b'$' => double_byte_seq(text, at),
        b'.' => g2_desig_seq(text, at),
        b'N' => single_shift_char(text, at, g2),
        _ => Item::Fault(fault(text, at + 1, Refusal::UnknownEscape), at + 1),
    }
}

// single-byte-seq = ESC "(" ( "B" / "J" ); reset-seq is the same
fn single_byte_seq(text: &[u8], at: usize) -> Item
    requires { Stands text.now at (bytes "␛(") }
    ensures { (g0 g2 : ℕ) → Finds text.now at g0 g2 result }
{
    let b = byte_at(text, at + 2);
    match b {
        b'B' => Item::ToSingles(6, at + 3),
        b'J' => Item::ToSingles(14, at + 3),
        _ => Item::Fault(fault(text, at + 2, Refusal::UnknownEscape), at + 2),
    }
}

// double-byte-seq = (ESC "$" ( "@" / "A" / "B" )) / (ESC "$" "(" ( "C" / "D" ))
fn double_byte_seq(text: &[u8], at: usize) -> Item
    requires { Stands text.now at (bytes "␛$") }
    ensures { (g0 g2 : ℕ) → Finds text.now at g0 g2 result }
{
    let b = byte_at(text, at + 2);
    match b {
        b'@' => Item::ToPairs(42, at + 3),
        b'A' => Item::ToPairs(58, at + 3),
        b'B' => Item::ToPairs(87, at + 3),
        b'(' => double_byte_seq_of_four(text, at),
        _ => Item::Fault(fault(text, at + 2, Refusal::UnknownEscape), at + 2),
    }
}

// ESC "$" "(" ( "C" / "D" )
fn double_byte_seq_of_four(text: &[u8], at: usize) -> Item
    requires { Stands text.now at (bytes "␛$(") }
    ensures { (g0 g2 : ℕ) → Finds text.now at g0 g2 result }
{
    let b = byte_at(text, at + 3);
    match b {
        b'C' => Item::ToPairs(149, at + 4),
        b'D' => Item::ToPairs(159, at + 4),
        _ => Item::Fault(fault(text, at + 3, Refusal::UnknownEscape), at + 3),
    }
}

// g2-desig-seq = ESC "." ( "A" / "F" )
fn g2_desig_seq(text: &[u8], at: usize) -> Item
    requires { Stands text.now at (bytes "␛.") }
    ensures { (g0 g2 : ℕ) → Finds text.now at g0 g2 result }
{
    let b = byte_at(text, at + 2);
    match b {
        b'A' => Item::ToG2(100, at + 3),
        b'F' => Item::ToG2(126, at + 3),
        _ => Item::Fault(fault(text, at + 2, Refusal::UnknownEscape), at + 2),
    }
}

// single-shift-char = single-shift-seq one-of-96; single-shift-seq = ESC "N"; "g2-desig-seq must precede
// single-shift-char"
fn single_shift_char(text: &[u8], at: usize, g2: u16) -> Item
    requires { Stands text.now at (bytes "␛N") }
    ensures { (g0 : ℕ) → Finds text.now at g0 g2 result }
{
    if g2 == 0 {
        return Item::Fault(Refusal::EmptyG2, at + 1);
    }
    let b = byte_at(text, at + 2);
    if !is_one_of_96(b) {
        return Item::Fault(fault(text, at + 2, Refusal::StrayByte), at + 2);
    }
    Item::Cell(cell(g2, b as u16), at + 3, g2)
}

// one-of-94 = <any one of 94 values> ; (41-176, 33.-126.)
fn is_one_of_94(b: u8) -> bool
    ensures { result ≡ graphic b }
{
    if b < 33 {
        return false;
    }
    b <= 126
}

// one-of-96 = <any one of 96 values> ; (40-177, 32.-127.)
fn is_one_of_96(b: u8) -> bool
    ensures { result ≡ (leb 32 b && leb b 127) }
{
    if b < 32 {
        return false;
    }
    b <= 127
}

// single-byte-char = <any 7BIT, including bare CR & bare LF, but NOT including CRLF, and not including ESC, SI, SO>
#[tactic(auto, unfolding(jp2::specs::Writable::ascii))]
fn is_single_byte_char(b: u8) -> bool
    ensures { result ≡ ascii b }
{
    match b {
        27 => false,
        15 => false,
        14 => false,
        _ => b <= 127,
    }
}

// G2 behind a single byte, by the byte that follows: CRLF ends the line, and "CR directly followed by LF clears G2".
fn g2_after(g2: u16, b: u8, next: u8) -> u16
    ensures { result ≡ g2_after g2 b next }
{
    if b == 13 {
        if next == 10 {
            return 0;
        }
    }
    g2
}

// "registration number times 65536, plus the code as sent"
fn cell(number: u16, code: u16) -> u32
    ensures { result ≡ cell_of number code }
{
    (number as u32) * 65536 + (code as u32)
}

// "pairs: first byte times 256 plus second"
fn pair(a: u8, b: u8) -> u16
    ensures { result ≡ a * 256 + b }
{
    (a as u16) * 256 + (b as u16)
}

// The byte at a place. Behind the text it is 255, which may stand nowhere.
fn byte_at(text: &[u8], at: usize) -> u8
    ensures { result ≡ byte_at text.now at }
{
    if at < text.len() {
        return text[at];
    }
    255
}

// What is wrong at a place where no byte stands that may: the text ends, the byte is 128 or more, or it is another.
fn fault(text: &[u8], at: usize, other: Refusal) -> Refusal
    ensures { number_of result ≡ fault_at text.now at (number_of other) }
{
    if text.len() <= at {
        return Refusal::CutShort;
    }
    if 127 < text[at] {
        return Refusal::HighByte;
    }
    other
}
