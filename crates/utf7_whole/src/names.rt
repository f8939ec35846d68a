// Reading mailbox names: a whole text at a time, as UTF-7 is read.
ghost use Rattle.std.specs.Prelude.{◌≡◌, false, ℕ, ◌<◌, ◌≤◌, ◌+◌, ◌^◌, length, get_or, eqb};
ghost use Rattle.std.proofs.Math.Seq.{slice};
ghost use Rattle.answer.specs.Answer.{in_numbers, limit};
ghost use Rattle.answer.specs.Inner.{Laid};
ghost use Rattle.answer.specs.Output.{leaves};
ghost use Rattle.reading.specs.Reading.{verdict_of, reading, read_into};
ghost use Rattle.reading.specs.Matching.{reads_as};
ghost use Rattle.utf7.specs.Sets.{printable, own};
ghost use Rattle.utf7.specs.declared.Style.TheVariants.{Name};
ghost use Rattle.mailbox.specs.Rule.{mailbox};
ghost use Rattle.utf7_whole.specs.Quick.{Padded, Span};
ghost use Rattle.utf7_whole.specs.Mailbox.{Tokens, Fills, Sign, Others, All, Stands, Holds, Matches};

use crate::{copy, pad, quick};
use answer::{Answer, Refusal, Refused};
use mailbox_read::State;
use reading::Move;

// Where a reader stands outside a run: the place of the next byte, after how many cells, and whether a run was closed
// directly before.
#[derive(Clone, Copy)]
pub struct Stand {
    pub at: usize,
    pub n: usize,
    pub after: bool,
}

// The byte stands for itself. With both ranges LLVM makes vector code of the loop over a block; with fewer tests it
// makes none.
fn is_plain(b: u8) -> bool
    ensures { result ≡ own Name b }
{
    (32 <= b) & (b <= 37) | (39 <= b) & (b <= 126)
}

// How many of the next 32 bytes stand for themselves before one that does not.
fn plain_ahead(text: &[u8], at: usize) -> usize
    requires { at + 32 ≤ length text.now }
    ensures { (result ≤ 32) × Span (own Name) text.now at (at + result) }
{
    let mut m: u8 = 32;
    for k in 0..32 {
        m = quick::least(m, quick::noted(is_plain(text[at + k]), k as u8));
    }
    m as usize
}

// 32 bytes go to the output from n on. With UTF-7's `widen` shared LLVM would inline it at neither place.
fn put_plain(text: &[u8], at: usize, out: &mut [u32], n: usize)
    requires { (at + 32 ≤ length text.now) × (n + 32 ≤ length out.old) }
    ensures { Laid (slice at (at + 32) text.now) n out.old out.new }
{
    quick::put_cells(quick::cells_ahead(text, at), out, n);
    quick::put_cells(quick::cells_ahead(text, at + 16), out, n + 16);
}

fn is_printable(u: u32) -> bool
    ensures { result ≡ printable u }
{
    (32 <= u) & (u <= 126)
}

// Some of the units from one place to another are printable. Each is tested, so that it compiles to no branch.
fn has_printable(units: &[u32], from: usize, to: usize) -> bool
    requires { to ≤ length units.now }
    ensures { result ≡ false → Others units.now from to }
{
    let mut some = false;
    for k in from..to {
        some = some | is_printable(units[k]);
    }
    some
}

fn is_dash(text: &[u8], at: usize) -> bool
    ensures { result ≡ eqb (get_or text.now at 0) 45 }
{
    if text.len() <= at {
        return false;
    }
    text[at] == b'-'
}

// A run's units go to the output, where no run was closed directly before, '-' closes it and none of them is printable;
// else the reader stays.
fn put_run(text: &[u8], from: Stand, out: &mut [u32]) -> Stand
    requires at_in_bounds { (from.at < length text.now) × Sign text.now from × (from.n ≤ length out.old) }
    requires after_value { from.after ≡ false }
    ensures { Tokens text.now from out.old result out.new }
{
    let at = from.at;
    let n = from.n;
    let r = quick::put_run(b',', text, at + 1, out, n);
    let end = r.at;
    if end == at + 1 {
        return from;
    }
    if has_printable(out, n, r.n) {
        return from;
    }
    if is_dash(text, end) {
        return Stand {
            at: end + 1,
            n: r.n,
            after: true,
        };
    }
    from
}

// The same of whatever '&' begins.
fn put_token(text: &[u8], from: Stand, out: &mut [u32]) -> Stand
    requires { (from.at + 5 ≤ length text.now) × Sign text.now from × (from.n < length out.old) }
    ensures { Tokens text.now from out.old result out.new }
{
    let at = from.at;
    let n = from.n;
    if text[at + 1] == b'-' {
        out[n] = 38;
        return Stand {
            at: at + 2,
            n: n + 1,
            after: false,
        };
    }
    if from.after {
        return from;
    }
    let one = quick::one_at(b',', text, at + 1);
    if one < 65536 {
        if is_printable(one) {
            return from;
        }
        out[n] = one;
        return Stand {
            at: at + 5,
            n: n + 1,
            after: true,
        };
    }
    put_run(text, from, out)
}

// The cells of a text, lent with or without zeros behind it, from a place on: they go to the output as long as it has
// room for blocks, up to a place near the end, or before anything that is not of the usual kinds.
fn fill(text: &[u8], from: Stand, out: &mut [u32]) -> Stand
    requires { (from.at ≤ length text.now) × (from.n ≤ length out.old) }
    ensures { Fills text.now from out.old result out.new }
{
    let mut at = from.at;
    let mut n = from.n;
    let mut after = from.after;
    while at + 37 <= text.len() {
        if out.len() < n + 33 {
            return Stand { at, n, after };
        }
        let k = plain_ahead(text, at);
        put_plain(text, at, out, n);
        if k == 32 {
            at += 32;
            n += 32;
            after = false;
        } else {
            after = after & (k == 0);
            at += k;
            n += k;
            if text[at] != b'&' {
                return Stand { at, n, after };
            }
            let r = put_token(text, Stand { at, n, after }, out);
            let to = r.at;
            if to <= at {
                return r;
            }
            at = to;
            n = r.n;
            after = r.after;
        }
    }
    Stand { at, n, after }
}

// Reads a text, which is lent with zeros behind it too, on from a place into a buffer that has a place for every cell
// and holds those before. What was read before a fault is left.
fn decode(text: &[u8], room: &[u8], from: Stand, out: &mut [u32]) -> Answer
    requires text_in_bounds { (length (reading mailbox text.now).cells ≤ length out.old) × (from.at ≤ length room.now) }
    requires padded { Padded text.now room.now × Holds text.now from out.old }
    ensures result_value { in_numbers result ≡ verdict_of (reading mailbox text.now) }
    ensures all { All text.now out.new }
{
    let reached = fill(room, from, out);
    let mut n = reached.n;
    let mut st = State::Outside(reached.after);
    for at in reached.at..text.len() {
        match mailbox_read::byte_does(st, text[at]) {
            Move::Give(value, state) => {
                out[n] = value;
                st = state;
                n += 1;
            }
            Move::Go(state) => st = state,
            Move::Bad(why) => return Err(Refused(why, at)),
        }
    }
    mailbox_read::finish(text.len(), n, st)
}

// Counts the cells of a text on from a place, by way of a small buffer.
fn judge(text: &[u8], from: Stand) -> Stand
    requires { Stands text.now from }
    ensures { Stands text.now result }
{
    let mut cells = [0u32; 1088];
    let mut at = from.at;
    let mut n = from.n;
    let mut after = from.after;
    while at < text.len() {
        let r = fill(text, Stand { at, n: 0, after }, &mut cells);
        let to = r.at;
        if to <= at {
            return Stand { at, n, after };
        }
        at = to;
        n += r.n;
        after = r.after;
    }
    Stand { at, n, after }
}

// The answer of a text that has room enough, on from a place, with nothing written.
fn measure(text: &[u8], from: Stand) -> Answer
    requires { Stands text.now from }
    ensures { in_numbers result ≡ verdict_of (reading mailbox text.now) }
{
    let reached = judge(text, from);
    let mut n = reached.n;
    let mut st = State::Outside(reached.after);
    for at in reached.at..text.len() {
        match mailbox_read::byte_does(st, text[at]) {
            Move::Give(_, state) => {
                st = state;
                n += 1;
            }
            Move::Go(state) => st = state,
            Move::Bad(fault) => return Err(Refused(fault, at)),
        }
    }
    mailbox_read::finish(text.len(), n, st)
}

fn start() -> Stand
    ensures { (result.at ≡ 0) × (result.n ≡ 0) × (result.after ≡ false) }
{
    Stand {
        at: 0,
        n: 0,
        after: false,
    }
}

// Reads a text by way of a room of zeros and a buffer that have a place for every byte. The whole text is judged before
// a cell is written to the output: a second pass costs more than a copy.
fn through(text: &[u8], room: &mut [u8], cells: &mut [u32], out: &mut [u32]) -> Answer
    requires text_len_bound { length text.now ≤ limit }
    requires text_in_bounds { length text.now ≤ length room.old }
    requires by_index { (i : ℕ) → get_or room.old i 0 ≡ 0 }
    requires text_in_bounds_2 { length text.now ≤ length cells.old }
    ensures { leaves result out.new ≡ read_into mailbox text.now out.old }
{
    pad(text, room);
    let found = decode(text, room, start(), cells);
    match found {
        Err(_) => {
            return found;
        }
        Ok(n) => {
            if out.len() < n {
                return Err(Refused(Refusal::NoRoom, n));
            }
            copy(cells, n, out);
            found
        }
    }
}

// Reads a longer text: its front by way of a buffer, and what that has no room for is counted, and read a second time.
fn front(text: &[u8], cells: &mut [u32], out: &mut [u32]) -> Answer
    requires { length text.now ≤ limit }
    ensures { leaves result out.new ≡ read_into mailbox text.now out.old }
{
    let r = fill(text, start(), cells);
    let m = r.n;
    let found = measure(text, r);
    match found {
        Err(_) => {
            return found;
        }
        Ok(count) => {
            if out.len() < count {
                return Err(Refused(Refusal::NoRoom, count));
            }
            copy(cells, m, out);
            let _ = decode(text, text, r, &mut out[..count]);
            found
        }
    }
}

// By way of a room and a buffer of N places, as UTF-7's.
fn through_in<const N: usize>(text: &[u8], out: &mut [u32]) -> Answer
    requires { (length text.now ≤ limit) × (length text.now ≤ N) × (N < 2 ^ 16) }
    ensures { leaves result out.new ≡ read_into mailbox text.now out.old }
{
    let mut room = [0; N];
    let mut cells = [0; N];
    through(text, &mut room, &mut cells, out)
}

fn front_4176(text: &[u8], out: &mut [u32]) -> Answer
    requires { length text.now ≤ limit }
    ensures { leaves result out.new ≡ read_into mailbox text.now out.old }
{
    let mut cells = [0u32; 4176];
    front(text, &mut cells, out)
}

// Reads a text into an output, by way of buffers on the stack: 22 KiB at most, whatever the limit.
pub fn read(text: &[u8], out: &mut [u32]) -> Answer
    ensures { leaves result out.new ≡ read_into mailbox text.now out.old }
{
    if answer::over_limit(text.len()) {
        return answer::too_long();
    }
    if text.len() <= 64 {
        return through_in::<144>(text, out);
    }
    if text.len() <= 256 {
        return through_in::<336>(text, out);
    }
    if text.len() <= 1024 {
        return through_in::<1104>(text, out);
    }
    if text.len() <= 4096 {
        return through_in::<4176>(text, out);
    }
    front_4176(text, out)
}

// Goes on as long as a text reads as the cells, by way of a small buffer.
fn follow(text: &[u8], cells: &[u32]) -> Stand
    ensures { Matches text.now cells.now result }
{
    let mut buffer = [0u32; 1088];
    let mut at: usize = 0;
    let mut n: usize = 0;
    let mut after = false;
    while at < text.len() {
        let r = fill(text, Stand { at, n: 0, after }, &mut buffer);
        let to = r.at;
        let m = r.n;
        if to <= at {
            return Stand { at, n, after };
        }
        if cells.len() - n < m {
            return Stand { at, n, after };
        }
        if quick::is_same(&buffer, m, cells, n) {
            at = to;
            n += m;
            after = r.after;
        } else {
            return Stand { at, n, after };
        }
    }
    Stand { at, n, after }
}

// The text is accepted and reads as the cells. Nothing is lent to be written.
pub fn reads_as(text: &[u8], cells: &[u32]) -> bool
    ensures { result ≡ reads_as mailbox text.now cells.now }
{
    let reached = follow(text, cells);
    let mut n = reached.n;
    let mut st = State::Outside(reached.after);
    for at in reached.at..text.len() {
        match mailbox_read::byte_does(st, text[at]) {
            Move::Give(value, state) => {
                if cells.len() <= n {
                    return false;
                }
                if cells[n] != value {
                    return false;
                }
                st = state;
                n += 1;
            }
            Move::Go(state) => st = state,
            Move::Bad(_) => return false,
        }
    }
    match mailbox_read::finish(text.len(), n, st) {
        Ok(_) => n == cells.len(),
        Err(_) => false,
    }
}
