// Reading UTF-7 and mailbox names: a whole text at a time.
#![tactic(auto)]

pub mod names;
mod quick;

ghost use Rattle.std.specs.Prelude.{◌≡◌, ℕ, ◌<◌, ◌≤◌, ◌^◌, length, get_or, take};
ghost use Rattle.answer.specs.Answer.{in_numbers, limit};
ghost use Rattle.answer.specs.Output.{leaves, filled};
ghost use Rattle.reading.specs.Reading.{verdict_of, reading, read_into};
ghost use Rattle.reading.specs.Matching.{reads_as};
ghost use Rattle.utf7.specs.Rule.{utf7};
ghost use Rattle.utf7_whole.specs.Quick.{Padded, Agrees};

use answer::{Answer, Refusal, Refused};
use reading::Move;
use utf7_read::State;

// A text goes to the front of a room of zeros. A loop, since the archive for C asks for memcpy and memset alone, and
// `copy_from_slice` calls memmove here.
fn pad(text: &[u8], room: &mut [u8])
    requires text_in_bounds { length text.now ≤ length room.old }
    requires by_index { (i : ℕ) → get_or room.old i 0 ≡ 0 }
    ensures { Padded text.now room.new }
{
    for k in 0..text.len() {
        room[k] = text[k];
    }
}

// Reads a text, which is lent with zeros behind it too, into a buffer that has a place for every cell. The cells stand
// in front; what lies behind them is free, and what was read before a fault is left.
fn decode(text: &[u8], room: &[u8], out: &mut [u32]) -> Answer
    requires text_in_bounds { length (reading utf7 text.now).cells ≤ length out.old }
    requires padded { Padded text.now room.now }
    ensures result_value { in_numbers result ≡ verdict_of (reading utf7 text.now) }
    ensures out_after { take (length (reading utf7 text.now).cells) out.new ≡ (reading utf7 text.now).cells }
{
    let reached = quick::fill(room, out);
    let mut n = reached.n;
    let mut st = State::Outside;
    for at in reached.at..text.len() {
        match utf7_read::byte_does(st, text[at]) {
            Move::Give(value, state) => {
                out[n] = value;
                st = state;
                n += 1;
            }
            Move::Go(state) => st = state,
            Move::Bad(why) => return Err(Refused(why, at)),
        }
    }
    utf7_read::ends_in(text.len(), n, st)
}

// The first n cells go to the front of the output, by a loop, as `pad` does.
fn copy(cells: &[u32], n: usize, out: &mut [u32])
    requires n_in_bounds { n ≤ length cells.now }
    requires n_in_bounds_2 { n ≤ length out.old }
    ensures { out.new ≡ filled (take n cells.now) out.old }
{
    for k in 0..n {
        out[k] = cells[k];
    }
}

// Reads a text by way of a room of zeros and a buffer that have a place for every byte. The whole text is judged before
// a cell is written to the output: a second pass costs more than a copy.
fn through(text: &[u8], room: &mut [u8], cells: &mut [u32], out: &mut [u32]) -> Answer
    requires text_len_bound { length text.now ≤ limit }
    requires text_in_bounds { length text.now ≤ length room.old }
    requires by_index { (i : ℕ) → get_or room.old i 0 ≡ 0 }
    requires text_in_bounds_2 { length text.now ≤ length cells.old }
    ensures { leaves result out.new ≡ read_into utf7 text.now out.old }
{
    pad(text, room);
    let found = decode(text, room, cells);
    match found {
        Err(_) => {
            return found;
        }
        Ok(n) => {
            if out.len() < n {
                return Err(Refused(Refusal::NoRoom, n));
            }
            copy(cells, n, out);
            found
        }
    }
}

// Judges a text, and writes nothing.
fn judge(text: &[u8]) -> Answer
    ensures { in_numbers result ≡ verdict_of (reading utf7 text.now) }
{
    let reached = quick::judge(text);
    let mut n = reached.n;
    let mut st = State::Outside;
    for at in reached.at..text.len() {
        match utf7_read::byte_does(st, text[at]) {
            Move::Give(_, state) => {
                st = state;
                n += 1;
            }
            Move::Go(state) => st = state,
            Move::Bad(fault) => return Err(Refused(fault, at)),
        }
    }
    utf7_read::ends_in(text.len(), n, st)
}

// Reads a text of any length straight into the output: judged first, then read once more.
fn straight(text: &[u8], out: &mut [u32]) -> Answer
    requires { length text.now ≤ limit }
    ensures { leaves result out.new ≡ read_into utf7 text.now out.old }
{
    let found = judge(text);
    match found {
        Err(_) => {
            return found;
        }
        Ok(count) => {
            if out.len() < count {
                return Err(Refused(Refusal::NoRoom, count));
            }
            let _ = decode(text, text, &mut out[..count]);
            found
        }
    }
}

// By way of a room and a buffer of N places on the stack: 80 more than the text has bytes, so that whole blocks reach its
// end. Each size is a function, so that LLVM lays their buffers over each other.
fn through_in<const N: usize>(text: &[u8], out: &mut [u32]) -> Answer
    requires { (length text.now ≤ limit) × (length text.now ≤ N) × (N < 2 ^ 16) }
    ensures { leaves result out.new ≡ read_into utf7 text.now out.old }
{
    let mut room = [0; N];
    let mut cells = [0; N];
    through(text, &mut room, &mut cells, out)
}

// Reads a text into an output. A short text is read by way of a buffer on the stack, of the smallest size that takes
// it; a longer one takes none.
pub fn read(text: &[u8], out: &mut [u32]) -> Answer
    ensures { leaves result out.new ≡ read_into utf7 text.now out.old }
{
    if answer::over_limit(text.len()) {
        return answer::too_long();
    }
    if text.len() <= 64 {
        return through_in::<144>(text, out);
    }
    if text.len() <= 256 {
        return through_in::<336>(text, out);
    }
    if text.len() <= 1024 {
        return through_in::<1104>(text, out);
    }
    if text.len() <= 4096 {
        return through_in::<4176>(text, out);
    }
    straight(text, out)
}

// What is left of a text reads as what is left of the cells, from a place outside a run on.
fn rest_reads_as(text: &[u8], cells: &[u32], from: usize, before: usize) -> bool
    requires { Agrees text.now cells.now from before }
    ensures { result ≡ reads_as utf7 text.now cells.now }
{
    let mut n = before;
    let mut st = State::Outside;
    for at in from..text.len() {
        match utf7_read::byte_does(st, text[at]) {
            Move::Give(value, state) => {
                if cells.len() <= n {
                    return false;
                }
                if cells[n] != value {
                    return false;
                }
                st = state;
                n += 1;
            }
            Move::Go(state) => st = state,
            Move::Bad(_) => return false,
        }
    }
    match utf7_read::ends_in(text.len(), n, st) {
        Ok(_) => n == cells.len(),
        Err(_) => false,
    }
}

// The text is accepted and reads as the cells. Nothing is lent to be written.
pub fn reads_as(text: &[u8], cells: &[u32]) -> bool
    ensures { result ≡ reads_as utf7 text.now cells.now }
{
    match quick::compare(text, cells) {
        Some(found) => rest_reads_as(text, cells, found.at, found.n),
        None => false,
    }
}
