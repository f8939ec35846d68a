// The listers' output, byte for byte as document 01 lays it down.
#![tactic(auto)]

ghost use Rattle.std.specs.Prelude.{◌≡◌, [], ◌∷◌, ◌++◌, ◌<◌, ◌≤◌, length, drop};
ghost use Rattle.answer.specs.Answer.{limit, numbered, in_numbers};
ghost use Rattle.answer.specs.Output.{leaves, filled};
ghost use Rattle.listing.specs.Listing.{digit, decimal, hex_in, spaced, line, cells_name, answer_lines, listing, say_into, tell_into, list_into};

use answer::{Answer, Refusal, Refused};

fn digit_of(d: u32) -> u8
    requires { d < 16 }
    ensures { result ≡ digit d }
{
    if d < 10 {
        b'0' + d as u8
    } else {
        b'A' + (d as u8 - 10)
    }
}

// How many digits a number has in decimal.
fn places(n: usize) -> usize
    ensures { result ≡ length (decimal n) }
{
    let mut rest = n;
    let mut k: usize = 1;
    // as often as ten goes into it: no sequence to run over
    while 10 <= rest {
        rest = rest / 10;
        k += 1;
    }
    k
}

// A number in decimal goes to the front of the output.
fn put_decimal(n: usize, out: &mut [u8]) -> usize
    requires { length (decimal n) ≤ length out.old }
    ensures { (result ≡ length (decimal n)) × (out.new ≡ filled (decimal n) out.old) }
{
    if n < 10 {
        out[0] = digit_of(n as u32);
        return 1;
    }
    let at = put_decimal(n / 10, out);
    out[at] = digit_of((n % 10) as u32);
    at + 1
}

// A cell's eight hex digits.
fn put_hex(v: u32, out: &mut [u8])
    requires { 8 ≤ length out.old }
    ensures { out.new ≡ filled (hex_in 8 v) out.old }
{
    for at in 0..8 {
        out[at] = digit_of((v >> (4 * (7 - at as u32))) % 16);
    }
}

// Cells, each with a space in front.
fn put_spaced(cells: &[u32], out: &mut [u8]) -> usize
    requires { length (spaced cells.now) ≤ length out.old }
    ensures { (result ≡ length (spaced cells.now))
        × (out.new ≡ filled (spaced cells.now) out.old) }
{
    let mut at: usize = 0;
    for &cell in cells {
        out[at] = b' ';
        at += 1;
        put_hex(cell, &mut out[at..]);
        at += 8;
    }
    at
}

// Cells with one space between.
fn put_cells(cells: &[u32], out: &mut [u8]) -> usize
    requires { length (drop 1 (spaced cells.now)) ≤ length out.old }
    ensures { (result ≡ length (drop 1 (spaced cells.now)))
        × (out.new ≡ filled (drop 1 (spaced cells.now)) out.old) }
{
    if cells.len() == 0 {
        return 0;
    }
    put_hex(cells[0], out);
    8 + put_spaced(&cells[1..], &mut out[8..])
}

// A line's name and its '='.
fn put_name(name: &[u8], out: &mut [u8]) -> usize
    requires { length (name.now ++ 61 ∷ []) ≤ length out.old }
    ensures { (result ≡ length (name.now ++ 61 ∷ []))
        × (out.new ≡ filled (name.now ++ 61 ∷ []) out.old) }
{
    let n = name.len();
    out[..n].copy_from_slice(name);
    out[n] = b'=';
    n + 1
}

// A line that says a number.
fn put_number(name: &[u8], n: usize, out: &mut [u8]) -> usize
    requires { length (line name.now (decimal n)) ≤ length out.old }
    ensures { (result ≡ length (line name.now (decimal n)))
        × (out.new ≡ filled (line name.now (decimal n)) out.old) }
{
    let from = put_name(name, out);
    let at = from + put_decimal(n, &mut out[from..]);
    out[at] = b'\n';
    at + 1
}

// The line of the cells.
fn put_row(cells: &[u32], out: &mut [u8])
    requires { length (line cells_name (drop 1 (spaced cells.now))) ≤ length out.old }
    ensures { out.new ≡ filled (line cells_name (drop 1 (spaced cells.now))) out.old }
{
    let from = put_name(b"cells", out);
    let at = from + put_cells(cells, &mut out[from..]);
    out[at] = b'\n';
}

// The bytes that an answer needs.
fn answer_size(number: usize, place: usize) -> usize
    ensures { result ≡ length (answer_lines (numbered number place)) }
{
    // a line has a name, '=' and LF beside what it says
    places(number) + places(place) + 15
}

// An answer goes to the front of the output.
fn put_answer(number: usize, place: usize, out: &mut [u8]) -> usize
    requires { length (answer_lines (numbered number place)) ≤ length out.old }
    ensures { (result ≡ length (answer_lines (numbered number place)))
        × (out.new ≡ filled (answer_lines (numbered number place)) out.old) }
{
    let at = put_number(b"status", number, out);
    let name = if number == 0 { *b"count" } else { *b"place" };
    at + put_number(&name, place, &mut out[at..])
}

// The bytes that a listing needs.
fn size(number: usize, place: usize, cells: &[u32]) -> usize
    requires { length cells.now ≤ limit }
    ensures { result ≡ length (listing (numbered number place) cells.now) }
{
    let numbers = answer_size(number, place);
    if number != 0 {
        return numbers;
    }
    if cells.len() == 0 {
        return numbers + 7;
    }
    // every cell but the first has a space
    numbers + 6 + 9 * cells.len()
}

// The listing goes to the front of the output.
fn put_listing(number: usize, place: usize, cells: &[u32], out: &mut [u8])
    requires { length (listing (numbered number place) cells.now) ≤ length out.old }
    ensures { out.new ≡ filled (listing (numbered number place) cells.now) out.old }
{
    let at = put_answer(number, place, out);
    if number == 0 {
        put_row(cells, &mut out[at..]);
    }
}

// Spells a line that says a number into an output.
pub fn say(name: &[u8], n: usize, out: &mut [u8]) -> Answer
    ensures { leaves result out.new ≡ say_into name.now n out.old }
{
    // beside the name and the number '=' and LF
    let need = name.len() + places(n) + 2;
    if out.len() < need {
        return Err(Refused(Refusal::NoRoom, need));
    }
    put_number(name, n, out);
    Ok(need)
}

// Spells an answer alone into an output.
pub fn tell(given: Answer, out: &mut [u8]) -> Answer
    ensures { leaves result out.new ≡ tell_into (in_numbers given) out.old }
{
    let number = answer::number(given) as usize;
    let place = answer::place(given);
    let need = answer_size(number, place);
    if out.len() < need {
        return Err(Refused(Refusal::NoRoom, need));
    }
    put_answer(number, place, out);
    Ok(need)
}

// Spells an answer, and the cells where it is accepted, into an output.
pub fn list(given: Answer, cells: &[u32], out: &mut [u8]) -> Answer
    ensures { leaves result out.new ≡ list_into (in_numbers given) cells.now out.old }
{
    if answer::over_limit(cells.len()) {
        return answer::too_long();
    }
    let number = answer::number(given) as usize;
    let place = answer::place(given);
    let need = size(number, place, cells);
    if out.len() < need {
        return Err(Refused(Refusal::NoRoom, need));
    }
    put_listing(number, place, cells, out);
    Ok(need)
}
