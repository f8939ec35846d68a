// Writing UTF-7, in header and in body style, and mailbox names.
#![tactic(auto)]

ghost use Rattle.std.specs.Prelude.{◌≡◌, ◌+◌, ◌-◌, ◌<◌, ◌≤◌, ◌^◌, true, false, cond, [], ◌∷◌, map, length, get_or, take, drop};
ghost use Rattle.std.proofs.lemmas.List.Edits.{sets};
ghost use Rattle.std.proofs.Math.Seq.{paste};
ghost use Rattle.answer.specs.Answer.{limit};
ghost use Rattle.answer.specs.Lists.{Each};
ghost use Rattle.answer.specs.Output.{leaves, filled};
ghost use Rattle.bits.specs.Bits.{bits_of};
ghost use Rattle.alphabet.specs.Letters.{within, letter_of};
ghost use Rattle.utf7.specs.Sets.{own};
ghost use Rattle.utf7.specs.declared.Style.TheVariants.{Header, Body, Name};
ghost use Rattle.utf7.specs.Writing.{IsUnit, spell, stretch, writing, first_over, write_into};
ghost use Rattle.utf7_write.specs.Stretch.{other, stretch_length};
ghost use Rattle.utf7_write.specs.Values.{values, four_of};
ghost use Rattle.answer.specs.Ahead.{Ahead};
ghost use Rattle.utf7_write.specs.Ahead.{High, Own, own_bit, OwnFrom, narrow, Narrowed, mark_of, Turned, Marked, Bit, Zero, word_at, Low};
ghost use Rattle.utf7_write.specs.Begun.{Begun};

use answer::{Answer, Refusal, Refused};
use utf7::Style;

// "n units need at most 5n bytes"
pub const PER_CELL: usize = 5;

// The unit belongs to a run.
fn is_other(style: Style, u: u32) -> bool
    ensures { result ≡ other style u }
{
    if utf7::is_own(style, u) {
        return false;
    }
    u != utf7::sign_of(style)
}

// Whether the sixteen cells from a place on are 128 or more, and so other units. It is asked at every sixteenth cell only.
fn high_ahead(cells: &[u32], i: usize) -> bool
    requires { i ≤ length cells.now }
    ensures { result ≡ true → (i + 16 ≤ length cells.now) × Ahead High cells.now i 16 }
{
    if i % 16 != 0 {
        return false;
    }
    if cells.len() - i < 16 {
        return false;
    }
    let mut high = true;
    for k in 0..16 {
        if cells[i + k] < 128 {
            high = false;
        }
    }
    high
}

// The end of the longest stretch from a place on.
fn stretch_end(style: Style, cells: &[u32], from: usize) -> usize
    requires { from ≤ length cells.now }
    ensures { result ≡ from + stretch_length style (drop from cells.now) }
{
    let mut j = from;
    // by sixteens or by one: no `for` moves so
    while j < cells.len() {
        if high_ahead(cells, j) {
            j += 16;
        } else {
            if !is_other(style, cells[j]) {
                return j;
            }
            j += 1;
        }
    }
    j
}

// The bytes that a writing needs.
fn size(style: Style, cells: &[u32]) -> usize
    requires { length cells.now ≤ limit }
    ensures { result ≡ length (writing style cells.now) }
{
    let sign = utf7::sign_of(style);
    let mut i: usize = 0;
    let mut total: usize = 0;
    // a whole run or one cell at a time: no `for` moves so
    while i < cells.len() {
        let u = cells[i];
        if is_other(style, u) {
            let j = stretch_end(style, cells, i);
            total += 2 + ((j - i) * 16 + 5) / 6;
            i = j;
        } else {
            if u == sign {
                total += 2;
                i += 1;
            } else {
                total += 1;
                i += 1;
            }
        }
    }
    total
}

// The values of the four letters of 24 bits.
fn put_four(v: u32, out: &mut [u8], at: usize)
    requires { (v < 2 ^ 24) × (at + 4 ≤ length out.old) }
    ensures { out.new ≡ sets out.old at (four_of v) }
{
    let a = v % 262144;
    let b = a % 4096;
    out[at] = (v / 262144) as u8;
    out[at + 1] = (a / 4096) as u8;
    out[at + 2] = (b / 64) as u8;
    out[at + 3] = (b % 64) as u8;
}

// The values of the last letters: those of none, one or two units.
fn put_last(cells: &[u32], i: usize, out: &mut [u8], at: usize) -> usize
    requires { Each IsUnit cells.now × (i ≤ length cells.now) × (length cells.now < i + 3)
        × (at + length (values (bits_of 16 (drop i cells.now))) ≤ length out.old) }
    ensures { (result ≡ at + length (values (bits_of 16 (drop i cells.now))))
        × (out.new ≡ sets out.old at (values (bits_of 16 (drop i cells.now)))) }
{
    if cells.len() - i == 0 {
        return at;
    }
    let u = cells[i];
    if cells.len() - i == 1 {
        let a = u % 1024;
        out[at] = (u / 1024) as u8;
        out[at + 1] = (a / 16) as u8;
        out[at + 2] = (a % 16 * 4) as u8;
        return at + 3;
    }
    let w = cells[i + 1];
    let b = w % 256;
    put_four(u * 256 + w / 256, out, at);
    out[at + 4] = (b / 4) as u8;
    out[at + 5] = (b % 4 * 16) as u8;
    at + 6
}

// The values of the letters of units go to the output from a place on; the place behind them.
fn put_values(cells: &[u32], out: &mut [u8], from: usize) -> usize
    requires { Each IsUnit cells.now × (from + length (values (bits_of 16 cells.now)) ≤ length out.old) }
    ensures { (result ≡ from + length (values (bits_of 16 cells.now)))
        × (out.new ≡ sets out.old from (values (bits_of 16 cells.now))) }
{
    let mut i: usize = 0;
    let mut at = from;
    // two places move at once, and what is left over has a last step of its own
    while 3 <= cells.len() - i {
        let u = cells[i];
        let w = cells[i + 1];
        let x = cells[i + 2];
        put_four(u * 256 + w / 256, out, at);
        put_four(w % 256 * 65536 + x, out, at + 4);
        at += 8;
        i += 3;
    }
    put_last(cells, i, out, at)
}

// Values are turned into letters where they stand.
fn turn_letters(last: u8, out: &mut [u8], from: usize, to: usize)
    requires { (from ≤ to) × (to ≤ length out.old) }
    ensures { out.new ≡ sets out.old from (map (letter_of last) (take (to - from) (drop from out.old))) }
{
    for k in from..to {
        out[k] = alphabet::letter_of(last, out[k] as u32);
    }
}

// One run: the sign, the letters of its units, '-'.
fn write_run(style: Style, cells: &[u32], out: &mut [u8]) -> usize
    requires { Each IsUnit cells.now × (length (spell style (stretch cells.now)) ≤ length out.old) }
    ensures { (result ≡ length (spell style (stretch cells.now)))
        × (out.new ≡ filled (spell style (stretch cells.now)) out.old) }
{
    out[0] = utf7::sign_of(style) as u8;
    let end = put_values(cells, out, 1);
    turn_letters(utf7::last_of(style), out, 1, end);
    out[end] = 45;
    end + 1
}

// 1 where a byte is from one to another, else what it was before. A block of bytes is told by such choices alone, so that it compiles to vector code.
fn or_within(own: u8, from: u8, to: u8, b: u8) -> u8
    ensures { result ≡ cond (within from to b) 1 own }
{
    if from <= b && b <= to {
        return 1;
    }
    own
}

// 1 for a byte that header style writes as itself.
fn own_in_header(b: u8) -> u8
    ensures { result ≡ own_bit Header b }
{
    let small = or_within(0, b'a', b'z', b);
    let letter = or_within(small, b'A', b'Z', b);
    let digit = or_within(letter, b',', b':', b);
    let quote = or_within(digit, b'\'', b')', b);
    let question = or_within(quote, b'?', b'?', b);
    let space = or_within(question, b' ', b' ', b);
    let tab = or_within(space, 9, 10, b);
    or_within(tab, 13, 13, b)
}

// 1 for a byte that body style writes as itself.
fn own_in_body(b: u8) -> u8
    ensures { result ≡ own_bit Body b }
{
    let low = or_within(0, b' ', b'*', b);
    let middle = or_within(low, b',', b'[', b);
    let high = or_within(middle, b']', b'}', b);
    let tab = or_within(high, 9, 10, b);
    or_within(tab, 13, 13, b)
}

// 1 for a byte that stands for itself in names.
fn own_in_name(b: u8) -> u8
    ensures { result ≡ own_bit Name b }
{
    let low = or_within(0, b' ', b'%', b);
    or_within(low, b'\'', b'~', b)
}

// 1 for a byte that is written as itself in the style.
fn own_byte(style: Style, b: u8) -> u8
    ensures { result ≡ own_bit style b }
{
    match style {
        Style::Header => own_in_header(b),
        Style::Body => own_in_body(b),
        Style::Name => own_in_name(b),
    }
}

// A cell below 128 as a byte; 0, which no style writes as itself, for any other.
fn byte_of(u: u32) -> u8
    ensures { result ≡ narrow u }
{
    if u < 128 {
        return u as u8;
    }
    0
}

// The sixteen cells from a place on as bytes.
fn bytes_ahead(cells: &[u32], i: usize) -> [u8; 16]
    requires { i + 16 ≤ length cells.now }
    ensures { Narrowed cells.now i result 16 }
{
    let mut bytes = [0u8; 16];
    for k in 0..16 {
        bytes[k] = byte_of(cells[i + k]);
    }
    bytes
}

// Sixteen bytes go to the output at once.
fn put_block(block: [u8; 16], out: &mut [u8], at: usize)
    requires { at + 16 ≤ length out.old }
    ensures { out.new ≡ paste out.old at block 16 }
{
    for k in 0..16 {
        out[at + k] = block[k];
    }
}

// Whether body style writes all of sixteen bytes as themselves.
fn all_direct(bytes: [u8; 16]) -> bool
    ensures { result ≡ true → Ahead (Own Body) bytes 0 16 }
{
    let mut direct = true;
    for k in 0..16 {
        direct = direct & utf7::is_direct_byte(bytes[k]);
    }
    direct
}

// Copies blocks that body style writes as themselves; the place of the first cell that is not copied.
fn copy_blocks(cells: &[u32], from: usize, out: &mut [u8], to: usize) -> usize
    requires { (from ≤ length cells.now) × (to + (length cells.now - from) ≤ length out.old) }
    ensures { (from ≤ result) × (result ≤ length cells.now) × Ahead (Own Body) cells.now from (result - from)
        × (out.new ≡ paste out.old to (drop from cells.now) (result - from)) }
{
    let mut j = from;
    let mut at = to;
    // by sixteens, two places at once, up to the first block that is not direct
    while 16 <= cells.len() - j {
        let bytes = bytes_ahead(cells, j);
        if !all_direct(bytes) {
            return j;
        }
        put_block(bytes, out, at);
        j += 16;
        at += 16;
    }
    j
}

// The codes below 64 that the style writes as themselves, a bit for each.
fn low_set(style: Style) -> u64
    ensures { OwnFrom style 0 result }
{
    match style {
        Style::Header => 0x87fff38100002600,
        Style::Body => 0xfffff7ff00002600,
        Style::Name => 0xffffffbf00000000,
    }
}

// The next 64 codes.
fn high_set(style: Style) -> u64
    ensures { OwnFrom style 64 result }
{
    match style {
        Style::Header => 0x7fffffe07fffffe,
        Style::Body => 0x3fffffffefffffff,
        Style::Name => 0x7fffffffffffffff,
    }
}

// Whether a unit is in a style's two sets.
fn in_sets(low: u64, high: u64, u: u32) -> bool
    ensures { (style : Style) → OwnFrom style 0 low → OwnFrom style 64 high → result ≡ own style u }
{
    let mut set = low;
    if 63 < u {
        set = high;
    }
    (u < 128) & ((set >> (u % 64)) % 2 == 1)
}

// The run of one unit: the sign, three letters, '-'.
fn write_one(style: Style, u: u32, out: &mut [u8])
    requires { IsUnit u × (length (spell style (stretch (u ∷ []))) ≤ length out.old) }
    ensures { out.new ≡ filled (spell style (stretch (u ∷ []))) out.old }
{
    let last = utf7::last_of(style);
    let a = alphabet::letter_of(last, u / 1024);
    let b = alphabet::letter_of(last, u / 16 % 64);
    let c = alphabet::letter_of(last, u % 16 * 4);
    let s = utf7::sign_of(style) as u8;
    out[0] = s;
    out[1] = a;
    out[2] = b;
    out[3] = c;
    out[4] = 45;
}

// Whether the style has long stretches of units that are written as themselves, for which a loop by itself pays.
fn is_long(style: Style) -> bool
    ensures { result ≡ true → style ≡ Body }
{
    match style {
        Style::Header => false,
        Style::Body => true,
        Style::Name => false,
    }
}

// 0 for a byte that is written as itself in the style, 1 for any other.
fn mark_of(style: Style, b: u8) -> u8
    ensures { result ≡ mark_of style b }
{
    if own_byte(style, b) == 1 {
        return 0;
    }
    1
}

// Bytes are turned into marks where they stand.
fn turn_marks(style: Style, marks: &mut [u8], n: usize)
    requires { n ≤ length marks.old }
    ensures { Turned style marks.old marks.new n }
{
    for k in 0..n {
        marks[k] = mark_of(style, marks[k]);
    }
}

// How many places are taken by sixteens: at most so many, and no more than there are.
fn room_for(left: usize, room: usize) -> usize
    ensures { (result ≤ left) × (result ≤ room) × (16 ≤ left → 16 ≤ room → 16 ≤ result) }
{
    if left < room {
        return left;
    }
    room
}

// The cells from a place on go to the front of the output as bytes, by sixteens; how many.
fn put_bytes(cells: &[u32], from: usize, out: &mut [u8]) -> usize
    requires { from ≤ length cells.now }
    ensures { (result ≤ length out.old) × Narrowed cells.now from out.new result
        × (from + 16 ≤ length cells.now → 16 ≤ length out.old → 16 ≤ result) }
{
    let most = room_for(cells.len() - from, out.len());
    let mut n: usize = 0;
    // by sixteens, as many as both have: the count is the answer
    while 16 <= most - n {
        let bytes = bytes_ahead(cells, from + n);
        put_block(bytes, out, n);
        n += 16;
    }
    n
}

// Marks of cells, and how many there are.
#[derive(Clone, Copy)]
struct Window {
    base: usize,
    count: usize,
}

// The window itself where it has sixteen marks from a place on; else one that begins there.
fn window_at(
    style: Style,
    cells: &[u32],
    i: usize,
    base: usize,
    count: usize,
    marks: &mut [u8],
) -> Window
    requires { (i + 16 ≤ length cells.now) × (16 ≤ length marks.old) × Marked style cells.now base marks.old count
        × (base ≤ i) × (count ≤ length marks.old) }
    ensures { Marked style cells.now result.base marks.new result.count × (result.base ≤ i)
        × (i + 16 ≤ result.base + result.count) × (result.count ≤ length marks.old) }
{
    if i - base + 16 <= count {
        return Window { base, count };
    }
    let n = put_bytes(cells, i, marks);
    turn_marks(style, marks, n);
    Window { base: i, count: n }
}

// A mark as a number.
fn mark_at(marks: &[u8], j: usize) -> u64
    requires { (j < length marks.now) × Bit (get_or marks.now j 0) }
    ensures { (result ≡ get_or marks.now j 0) × (result < 2) }
{
    marks[j] as u64
}

// Four marks as one number, the first lowest.
fn four_at(marks: &[u8], j: usize) -> u64
    requires { (j + 4 ≤ length marks.now) × Ahead Bit marks.now j 4 }
    ensures { (result ≡ word_at marks.now j 4) × (result < 2 ^ 32) }
{
    let a = mark_at(marks, j);
    let b = mark_at(marks, j + 1);
    let c = mark_at(marks, j + 2);
    let d = mark_at(marks, j + 3);
    a + b * 256 + c * 65536 + d * 16777216
}

// How many of sixteen marks come before one that is 1.
fn zeros_ahead(marks: &[u8], j: usize) -> usize
    requires { (j + 16 ≤ length marks.now) × Ahead Bit marks.now j 16 }
    ensures { (result ≤ 16) × Ahead Zero marks.now j result × (result < 16 → get_or marks.now (j + result) 0 ≡ 1) }
{
    let a = four_at(marks, j) + four_at(marks, j + 4) * 4294967296;
    let b = four_at(marks, j + 8) + four_at(marks, j + 12) * 4294967296;
    if a == 0 {
        return 8 + u64::trailing_zeros(b) as usize / 8;
    }
    u64::trailing_zeros(a) as usize / 8
}

// The low bytes of sixteen cells.
fn low_bytes(cells: &[u32], i: usize) -> [u8; 16]
    requires { i + 16 ≤ length cells.now }
    ensures { Low cells.now i result 16 }
{
    let mut bytes = [0u8; 16];
    for k in 0..16 {
        bytes[k] = (cells[i + k] % 256) as u8;
    }
    bytes
}

// Where the quick loop stopped: the cells written, and the bytes that stand.
#[derive(Clone, Copy)]
struct Reached {
    i: usize,
    at: usize,
}

// Writes by blocks while more than sixteen cells are left. How many of a block's bytes stand is told by marks made in advance, so that the next block's place waits
// for little. A block is stored whole before it is known how many of its bytes stand: each cell that
// is left takes a byte at least, so that all the others are written over.
fn write_blocks(style: Style, cells: &[u32], out: &mut [u8], marks: &mut [u8]) -> Reached
    requires { Each IsUnit cells.now × (length (writing style cells.now) ≤ length out.old) × (16 ≤ length marks.old) }
    ensures { Begun style cells.now out.old out.new result.i result.at }
{
    let sign = utf7::sign_of(style);
    let low = low_set(style);
    let high = high_set(style);
    let long = is_long(style);
    let mut i: usize = 0;
    let mut to: usize = 0;
    let mut base: usize = 0;
    let mut count: usize = 0;
    while 17 <= cells.len() - i {
        let w = window_at(style, cells, i, base, count, marks);
        base = w.base;
        count = w.count;
        let bytes = low_bytes(cells, i);
        put_block(bytes, out, to);
        let k = zeros_ahead(marks, i - base);
        if k == 16 {
            to += 16;
            i += 16;
            if long {
                let j = copy_blocks(cells, i, out, to);
                to += j - i;
                i = j;
            }
        } else {
            to += k;
            i += k;
            let u = cells[i];
            if u == sign {
                out[to] = sign as u8;
                out[to + 1] = 45;
                to += 2;
                i += 1;
            } else {
                if in_sets(low, high, cells[i + 1]) {
                    write_one(style, u, &mut out[to..]);
                    to += 5;
                    i += 1;
                } else {
                    let j = stretch_end(style, cells, i);
                    let n = write_run(style, &cells[i..j], &mut out[to..]);
                    to += n;
                    i = j;
                }
            }
        }
    }
    Reached { i, at: to }
}

// The writing of units goes to the front of the output; its length.
fn write_all(style: Style, cells: &[u32], out: &mut [u8]) -> usize
    requires { Each IsUnit cells.now × (length (writing style cells.now) ≤ length out.old) }
    ensures { (result ≡ length (writing style cells.now))
        × (out.new ≡ filled (writing style cells.now) out.old) }
{
    let sign = utf7::sign_of(style);
    let mut marks = [0u8; 64];
    let r = write_blocks(style, cells, out, &mut marks);
    let mut i: usize = r.i;
    let mut at: usize = r.at;
    // a whole run or one cell at a time, and two places move: no `for` is plainer
    while i < cells.len() {
        let u = cells[i];
        if is_other(style, u) {
            let j = stretch_end(style, cells, i);
            let n = write_run(style, &cells[i..j], &mut out[at..]);
            at += n;
            i = j;
        } else {
            if u == sign {
                out[at] = sign as u8;
                out[at + 1] = 45;
                at += 2;
                i += 1;
            } else {
                out[at] = u as u8;
                at += 1;
                i += 1;
            }
        }
    }
    at
}

// Writes cells into an output. All cells are judged before a byte is written. With room for as many units at their greatest, none is counted.
pub fn write(style: Style, cells: &[u32], out: &mut [u8]) -> Answer
    ensures { leaves result out.new ≡ write_into style cells.now out.old }
{
    if answer::over_limit(cells.len()) {
        return answer::too_long();
    }
    let over = utf7::first_over(cells);
    if over < cells.len() {
        return Err(Refused(Refusal::Unwritable, over));
    }
    if out.len() / PER_CELL < cells.len() {
        let need = size(style, cells);
        if out.len() < need {
            return Err(Refused(Refusal::NoRoom, need));
        }
    }
    let count = write_all(style, cells, out);
    Ok(count)
}
