// Writing ISO-2022-JP-2.
#![tactic(auto)]

ghost use Rattle.std.specs.Prelude.{◌≡◌, true, false, cond, map, ◌<◌, ◌≤◌, length, get_or};
ghost use Rattle.answer.specs.Answer.{limit};
ghost use Rattle.answer.specs.Inner.{Put};
ghost use Rattle.answer.specs.Lists.{Each};
ghost use Rattle.answer.specs.Output.{leaves, filled};
ghost use Rattle.jp2.specs.Table.{row_of_number};
ghost use Rattle.jp2.specs.Writable.{shift_set, codes, writable};
ghost use Rattle.jp2.specs.Writing.{designating, writing, write_into};
ghost use Rattle.jp2_write.specs.Pieces.{designation_of, body_size, base_of, shifted_of, one_of, low_byte, g2_after, todo, Stretch, Ready, Run, Surveyed, Puts};

use answer::{Answer, Refusal, Refused};

const LF: u32 = 6 * 65536 + 10;

const CR: u32 = 6 * 65536 + 13;

// ASCII's printable cells and DEL: one byte each, and G2 stays.
const FIRST_PLAIN: u32 = 6 * 65536 + 32;

const LAST_PLAIN: u32 = 6 * 65536 + 127;

// The first cell that is not writable, or the count of cells; and where all are writable, the bytes that their writing needs.
#[derive(Clone, Copy)]
struct Survey {
    foreign: usize,
    need: usize,
}

// The end of the stretch of plain cells at an index: empty where ASCII is not in force, or a set of G2 is, as stretches are short there.
fn stretch_end(cells: &[u32], from: usize, g0: u16, g2: u16) -> usize
    requires { from ≤ length cells.now }
    ensures { Stretch cells.now g0 from result }
{
    if g0 != 6 {
        return from;
    }
    if g2 != 0 {
        return from;
    }
    for i in from..cells.len() {
        if cells[i] < FIRST_PLAIN {
            return i;
        }
        if LAST_PLAIN < cells[i] {
            return i;
        }
    }
    cells.len()
}

// G2 after a cell of G0: CR and then LF clear it.
fn g2_after(cells: &[u32], i: usize, g2: u16) -> u16
    requires { i < length cells.now }
    ensures { result ≡ g2_after cells.now i g2 }
{
    if cells[i] != LF {
        return g2;
    }
    if i == 0 {
        return g2;
    }
    if cells[i - 1] == CR {
        return 0;
    }
    g2
}

fn designation_size(n: u16) -> usize
    requires { row_of_number n < 9 }
    ensures { result ≡ length (designation_of n) }
{
    let d = jp2::row_at(jp2::row_of_number(n));
    d.length
}

// The bytes of the return to ASCII.
fn return_size(g0: u16) -> usize
    ensures { result ≡ length (designating g0 6) }
{
    if g0 == 6 {
        return 0;
    }
    designation_size(6)
}

// One of two sizes, with no branch.
fn pick(test: bool, yes: usize, no: usize) -> usize
    ensures { result ≡ cond test yes no }
{
    if test {
        return yes;
    }
    no
}

// The bytes of a cell whose set is in force; 0 where it is not.
fn body_size(n: u16, g0: u16, g2: u16) -> usize
    ensures { result ≡ body_size n g0 g2 }
{
    if jp2::is_shift_set(n as u32) {
        return pick(n == g2, 3, 0);
    }
    if n != g0 {
        return 0;
    }
    if jp2::is_pair_set(n as u32) {
        return 2;
    }
    1
}

// How far a run of cells goes, and its bytes.
#[derive(Clone, Copy)]
struct Reached {
    i: usize,
    count: usize,
}

// The bytes of a cell of ASCII or of the set in G2, with a code of 32 to 127, where both are in force; 0 for any other.
fn ready(v: u32, g0: u16, g2: u16) -> usize
    ensures { 0 < result → Ready v g0 g2 result }
{
    if g0 != 6 {
        return 0;
    }
    if !jp2::is_shift_set(g2 as u32) {
        return 0;
    }
    let n = (v / 65536) as u16;
    let c = v % 65536;
    let single = pick(n == 6, 1, 0);
    let either = pick(n == g2, 3, single);
    let above = pick(c < 32, 0, either);
    pick(127 < c, 0, above)
}

// The bytes of the cell at an index, if it is ready; 0 for any other, and past the end.
fn ready_at(cells: &[u32], i: usize, g0: u16, g2: u16) -> usize
    ensures { 0 < result → (i < length cells.now) × Ready (get_or cells.now i 0) g0 g2 result }
{
    if i < cells.len() {
        return ready(cells[i], g0, g2);
    }
    0
}

// The bytes of the cells from an index on that are ready.
fn survey_ready(cells: &[u32], from: usize, g0: u16, g2: u16) -> Reached
    requires { (from ≤ length cells.now) × (length cells.now ≤ limit) }
    ensures { Run cells.now g0 g2 from result.i result.count }
{
    let mut count = 0;
    for i in from..cells.len() {
        let size = ready(cells[i], g0, g2);
        if size == 0 {
            return Reached { i, count };
        }
        count += size;
    }
    Reached {
        i: cells.len(),
        count,
    }
}

// Judges cells and counts their bytes. A set that is not in force is designated, and its cell then looked at again.
fn survey_cells(cells: &[u32]) -> Survey
    requires { length cells.now ≤ limit }
    ensures { Surveyed cells.now result }
{
    let mut g0: u16 = 6;
    let mut g2: u16 = 0;
    let mut total: usize = 0;
    let mut i: usize = 0;
    while i < cells.len() {
        let j = stretch_end(cells, i, g0, g2);
        if i < j {
            total += j - i;
            i = j;
        } else {
            let v = cells[i];
            let size = ready(v, g0, g2);
            if 0 < size {
                let run = survey_ready(cells, i + 1, g0, g2);
                total += size + run.count;
                i = run.i;
            } else {
                if !jp2::is_writable(v) {
                    return Survey {
                        foreign: i,
                        need: 0,
                    };
                }
                let n = (v / 65536) as u16;
                let bytes = body_size(n, g0, g2);
                if 0 < bytes {
                    total += bytes;
                    g2 = g2_after(cells, i, g2);
                    i += 1;
                } else {
                    total += designation_size(n);
                    if jp2::is_shift_set(n as u32) {
                        g2 = n;
                    } else {
                        g0 = n;
                    }
                }
            }
        }
    }
    Survey {
        foreign: i,
        need: total + return_size(g0),
    }
}

// A set's designation goes to the front of the output. Its length.
fn designate(out: &mut [u8], n: u16) -> usize
    requires { (row_of_number n < 9) × (length (designation_of n) ≤ length out.old) }
    ensures { Puts (designation_of n) out.old out.new result }
{
    let d = jp2::row_at(jp2::row_of_number(n));
    let sent = d.sent();
    out[..sent.len()].copy_from_slice(sent);
    sent.len()
}

// Plain cells go to the front of the output.
fn put_plain(out: &mut [u8], cells: &[u32]) -> usize
    requires { length cells.now ≤ length out.old }
    ensures { Puts (map low_byte cells.now) out.old out.new result }
{
    for (k, v) in cells.iter().enumerate() {
        out[k] = (*v % 256) as u8;
    }
    cells.len()
}

// A cell of G0 whose set is in force: a single byte, or a pair, whose code is no byte.
fn put_base(out: &mut [u8], n: u16, c: u32) -> usize
    requires { (codes n c ≡ true) × (shift_set n ≡ false) × (length (base_of n c) ≤ length out.old) }
    ensures { Puts (base_of n c) out.old out.new result }
{
    if c < 256 {
        out[0] = c as u8;
        return 1;
    }
    out[0] = (c / 256) as u8;
    out[1] = (c % 256) as u8;
    2
}

// A cell of G2 whose set is in force: ESC N and its code.
fn put_shifted(out: &mut [u8], c: u32) -> usize
    requires { (c < 256) × (3 ≤ length out.old) }
    ensures { Puts (shifted_of c) out.old out.new result }
{
    out[0] = 27;
    out[1] = 78;
    out[2] = c as u8;
    3
}

// A cell that is ready, by its bytes.
fn put_one(out: &mut [u8], c: u32, size: usize) -> usize
    requires { (c < 256) × (length (one_of c size) ≤ length out.old) }
    ensures { Puts (one_of c size) out.old out.new result }
{
    if size == 3 {
        return put_shifted(&mut *out, c);
    }
    out[0] = c as u8;
    1
}

// Cells that are ready go to the front of the output, from one of so many bytes on.
fn put_ready(out: &mut [u8], cells: &[u32], from: usize, g0: u16, g2: u16, first: usize) -> Reached
    requires { (from < length cells.now) × Ready (get_or cells.now from 0) g0 g2 first × (length (todo cells.now from g0 g2) ≤ length out.old) }
    ensures { (from < result.i) × (result.i ≤ length cells.now)
        × Put (todo cells.now from g0 g2) out.old out.new result.count (todo cells.now result.i g0 g2) }
{
    let mut i = from;
    let mut at: usize = 0;
    let mut size = first;
    // two places move at once, as long as cells are ready
    while 0 < size {
        at += put_one(&mut out[at..], cells[i] % 65536, size);
        i += 1;
        size = ready_at(cells, i, g0, g2);
    }
    Reached { i, count: at }
}

// The writing of cells goes to the front of the output.
fn write_all(cells: &[u32], out: &mut [u8])
    requires { Each (λ v. writable v ≡ true) cells.now × (length (writing cells.now) ≤ length out.old) }
    ensures { out.new ≡ filled (writing cells.now) out.old }
{
    let mut g0: u16 = 6;
    let mut g2: u16 = 0;
    let mut at: usize = 0;
    let mut i: usize = 0;
    while i < cells.len() {
        let j = stretch_end(cells, i, g0, g2);
        if i < j {
            at += put_plain(&mut out[at..], &cells[i..j]);
            i = j;
        } else {
            let v = cells[i];
            let size = ready(v, g0, g2);
            if 0 < size {
                let run = put_ready(&mut out[at..], cells, i, g0, g2, size);
                at += run.count;
                i = run.i;
                continue;
            }
            let n = (v / 65536) as u16;
            if n == g0 {
                at += put_base(&mut out[at..], n, v % 65536);
                g2 = g2_after(cells, i, g2);
                i += 1;
            } else {
                if n == g2 {
                    at += put_shifted(&mut out[at..], v % 65536);
                    i += 1;
                } else {
                    at += designate(&mut out[at..], n);
                    if jp2::is_shift_set(n as u32) {
                        g2 = n;
                    } else {
                        g0 = n;
                    }
                }
            }
        }
    }
    if g0 != 6 {
        designate(&mut out[at..], 6);
    }
}

// Writes cells into an output. All cells are judged before a byte is written.
pub fn write(cells: &[u32], out: &mut [u8]) -> Answer
    ensures { leaves result out.new ≡ write_into cells.now out.old }
{
    if answer::over_limit(cells.len()) {
        return answer::too_long();
    }
    let s = survey_cells(cells);
    let foreign = s.foreign;
    if foreign < cells.len() {
        return Err(Refused(Refusal::Unwritable, foreign));
    }
    let need = s.need;
    if out.len() < need {
        return Err(Refused(Refusal::NoRoom, need));
    }
    write_all(cells, out);
    Ok(need)
}
