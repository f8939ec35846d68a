// Writing subject lines, word by word, each with as many units as fit.
#![tactic(auto)]

ghost use Rattle.std.specs.Prelude.{◌≡◌, cond, ◌+◌, ◌-◌, ◌<◌, ◌≤◌, map, length, take, ltb, eqb};
ghost use Rattle.answer.specs.Answer.{limit};
ghost use Rattle.answer.specs.Lists.{Each};
ghost use Rattle.answer.specs.Output.{leaves, filled};
ghost use Rattle.utf7.specs.Writing.{IsUnit, writing};
ghost use Rattle.utf7.specs.declared.Style.TheVariants.{Header};
ghost use Rattle.parsing.specs.Digits.{digit};
ghost use Rattle.encoded_word.specs.Writing.{spelled, q_text, parts, share_of, line_of, write_into};
ghost use Rattle.encoded_word.specs.Inner.{q_size, end_of, word_and};
ghost use Rattle.encoded_word_write.specs.Inner.{Puts, alone_of, bringing, shown_as};

use answer::{Answer, Refusal, Refused};
use utf7::Style;

// n units need at most 78 n bytes: a word's 75, and CR, LF and a space.
pub const PER_CELL: usize = 78;

// The units that a word takes, and the characters of its Q text.
#[derive(Clone, Copy)]
struct Taken {
    count: usize,
    size: usize,
}

// The characters of a byte in Q text.
fn width(b: u8) -> usize
    ensures { result ≡ length (spelled b) }
{
    if b == 32 {
        return 1;
    }
    if encoded_word::is_itself(b) {
        return 1;
    }
    3
}

// The unit is written as one character: a bit for each of the codes below 64, and of the next 64.
fn is_plain(u: u32) -> bool
    requires { u < 128 }
    ensures { result ≡ eqb (alone_of u) 1 }
{
    let mut set: u64 = 0x7fff38100000000;
    if 63 < u {
        set = 0x7fffffe07fffffe;
    }
    (set >> (u % 64)) % 2 == 1
}

// The characters that a unit brings by itself: 3 for a pair, 2 for '+', 0 for one that belongs to a run.
fn alone(u: u32) -> usize
    ensures { result ≡ alone_of u }
{
    if 127 < u {
        return 0;
    }
    if is_plain(u) {
        return 1;
    }
    if u == 43 {
        return 2;
    }
    if utf7::is_own(Style::Header, u) {
        return 3;
    }
    0
}

// The characters that a unit brings, behind so many units of a run. A run of k has 2 and 8 k / 3 of them, rounded up.
fn brought(alone: usize, run: usize) -> usize
    ensures { result ≡ bringing alone run }
{
    if alone != 0 {
        return alone;
    }
    if run == 0 {
        return 5;
    }
    if run % 3 == 2 {
        return 2;
    }
    3
}

// The units of a run that then stand at the end.
fn run_after(alone: usize, run: usize) -> usize
    requires { run ≤ limit }
    ensures { result ≡ cond (eqb alone 0) (run + 1) 0 }
{
    if alone == 0 {
        return run + 1;
    }
    0
}

// A high surrogate stands directly before a place, and a low one at it.
fn parts_pair(units: &[u32], i: usize) -> bool
    requires { (0 < i) × (i < length units.now) }
    ensures { result ≡ parts units.now i }
{
    let high = units[i - 1];
    let low = units[i];
    (0xD800 <= high) & (high <= 0xDBFF) & ((0xDC00 <= low) & (low <= 0xDFFF))
}

// As many units as fit, where the next does not; one less where a pair would be parted.
fn cut(units: &[u32], i: usize, size: usize, before: usize) -> Taken
    requires { (0 < i) × (i < length units.now) }
    ensures { (result.count ≡ cond (parts units.now i) (i - 1) i)
        × (result.size ≡ cond (parts units.now i) before size) }
{
    if parts_pair(units, i) {
        return Taken {
            count: i - 1,
            size: before,
        };
    }
    Taken { count: i, size }
}

// What the first word of some units takes.
fn share(units: &[u32]) -> Taken
    requires { Each IsUnit units.now × (0 < length units.now) × (length units.now ≤ limit) }
    ensures { (result.count ≡ share_of units.now)
        × (result.size ≡ q_size (take (share_of units.now) units.now)) }
{
    let mut size = 0;
    let mut before = 0;
    let mut run = 0;
    for (i, u) in units.iter().enumerate() {
        let own = alone(*u);
        let more = size + brought(own, run);
        if 63 < more {
            return cut(units, i, size, before);
        }
        before = size;
        size = more;
        run = run_after(own, run);
    }
    Taken {
        count: units.len(),
        size,
    }
}

// The characters of CR, LF and a space, where there are more words.
fn gap(i: usize, n: usize) -> usize
    ensures { result ≡ cond (ltb i n) 3 0 }
{
    if i < n {
        return 3;
    }
    0
}

// The bytes that a line needs.
fn size(units: &[u32]) -> usize
    requires { Each IsUnit units.now × (length units.now ≤ limit) }
    ensures { result ≡ length (line_of units.now) }
{
    let mut i: usize = 0;
    let mut total: usize = 0;
    // a word at a time, of as many units as it takes
    while i < units.len() {
        let s = share(&units[i..]);
        i += s.count;
        total += 12 + s.size + gap(i, units.len());
    }
    total
}

// These bytes go to the output from a place on; the place behind them.
fn put_bytes(bytes: &[u8], out: &mut [u8], at: usize) -> usize
    requires { at + length bytes.now ≤ length out.old }
    ensures { (result ≡ at + length bytes.now)
        × Puts bytes.now at out.old out.new }
{
    let end = at + bytes.len();
    out[at..end].copy_from_slice(bytes);
    end
}

fn figure(d: u8) -> u8
    requires { d < 16 }
    ensures { result ≡ digit d }
{
    let figures = *b"0123456789ABCDEF";
    figures[d as usize]
}

// A byte in Q text.
fn put_spelled(b: u8, out: &mut [u8], at: usize)
    requires { at + length (spelled b) ≤ length out.old }
    ensures { Puts (spelled b) at out.old out.new }
{
    if b == 32 {
        out[at] = b'_';
        return;
    }
    if encoded_word::is_itself(b) {
        out[at] = b;
        return;
    }
    let high = figure(b / 16);
    let low = figure(b % 16);
    out[at] = b'=';
    out[at + 1] = high;
    out[at + 2] = low;
}

// A space as Q text has it, any other byte as it is.
fn shown(b: u8) -> u8
    ensures { result ≡ shown_as b }
{
    if b == 32 {
        return b'_';
    }
    b
}

// The first n bytes are shown where they stand. Every byte is stored, so that it compiles to vector code.
fn show(out: &mut [u8], n: usize)
    requires { n ≤ length out.old }
    ensures { out.new ≡ filled (map shown_as (take n out.old)) out.old }
{
    for k in 0..n {
        out[k] = shown(out[k]);
    }
}

// The first n bytes become Q text of so many characters where they stand: from the last of them back to the first that
// is a pair, and those before it at once.
fn spell(out: &mut [u8], n: usize, size: usize)
    requires { (n ≤ length out.old) × (size ≤ length out.old) × (size ≡ length (q_text (take n out.old))) }
    ensures { out.new ≡ filled (q_text (take n out.old)) out.old }
{
    let mut i = n;
    let mut to = size;
    // backwards by two places, of which one moves by one or by three
    while i < to {
        i -= 1;
        let b = out[i];
        to -= width(b);
        put_spelled(b, &mut *out, to);
    }
    show(out, i);
}

// The end of a word, and what stands between it and another.
fn put_end(more: bool, out: &mut [u8], at: usize) -> usize
    requires { at + length (end_of more) ≤ length out.old }
    ensures { (result ≡ at + length (end_of more)) × Puts (end_of more) at out.old out.new }
{
    if more {
        return put_bytes(b"?=\r\n ", out, at);
    }
    put_bytes(b"?=", out, at)
}

// The UTF-7 of units goes to the front of a text; its length.
fn utf7_of(units: &[u32], text: &mut [u8]) -> usize
    requires { Each IsUnit units.now × (length units.now ≤ limit)
        × (length (writing Header units.now) ≤ length text.old) }
    ensures { (result ≡ length (writing Header units.now))
        × (text.new ≡ filled (writing Header units.now) text.old) }
{
    match utf7_write::write(Style::Header, units, text) {
        Ok(n) => n,
        Err(_) => 0,
    }
}

// The Q text of units, of so many characters, goes to the front of the output.
fn put_text(units: &[u32], size: usize, out: &mut [u8])
    requires { Each IsUnit units.now × (length units.now ≤ limit) × (size ≡ q_size units.now)
        × (size ≤ length out.old) }
    ensures { out.new ≡ filled (q_text (writing Header units.now)) out.old }
{
    let n = utf7_of(units, &mut *out);
    spell(out, n, size);
}

fn put_word(units: &[u32], size: usize, more: bool, out: &mut [u8], at: usize) -> usize
    requires { Each IsUnit units.now × (length units.now ≤ limit) × (size ≡ q_size units.now)
        × (at + length (word_and more units.now) ≤ length out.old) }
    ensures { (result ≡ at + length (word_and more units.now))
        × Puts (word_and more units.now) at out.old out.new }
{
    let from = put_bytes(b"=?utf-7?Q?", &mut *out, at);
    put_text(units, size, &mut out[from..]);
    put_end(more, out, from + size)
}

// The line of units goes to the front of the output; its length.
fn put_line(units: &[u32], out: &mut [u8]) -> usize
    requires { Each IsUnit units.now × (length units.now ≤ limit)
        × (length (line_of units.now) ≤ length out.old) }
    ensures { (result ≡ length (line_of units.now))
        × (out.new ≡ filled (line_of units.now) out.old) }
{
    let mut i: usize = 0;
    let mut at: usize = 0;
    // a word at a time, of as many units as it takes
    while i < units.len() {
        let s = share(&units[i..]);
        let j = i + s.count;
        at = put_word(&units[i..j], s.size, j < units.len(), &mut *out, at);
        i = j;
    }
    at
}

// Writes units into an output. All are judged before a byte is written. With room for as many units at their greatest,
// none is counted.
pub fn write(units: &[u32], out: &mut [u8]) -> Answer
    ensures { leaves result out.new ≡ write_into units.now out.old }
{
    if answer::over_limit(units.len()) {
        return answer::too_long();
    }
    let over = utf7::first_over(units);
    if over < units.len() {
        return Err(Refused(Refusal::Unwritable, over));
    }
    if out.len() / PER_CELL < units.len() {
        let need = size(units);
        if out.len() < need {
            return Err(Refused(Refusal::NoRoom, need));
        }
    }
    let count = put_line(units, out);
    Ok(count)
}
