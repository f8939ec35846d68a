// Reading ISO-2022-JP-2 texts whole.
#![tactic(auto)]

mod quick;

ghost use Rattle.std.specs.Prelude.{◌≡◌, ◌<◌, ◌≤◌, ◌^◌, length, take};
ghost use Rattle.answer.specs.Answer.{in_numbers, limit};
ghost use Rattle.answer.specs.Output.{leaves, filled};
ghost use Rattle.reading.specs.Reading.{verdict_of, reading, read_into};
ghost use Rattle.reading.specs.Matching.{reads_as};
ghost use Rattle.jp2.specs.Rule.{state, plain, jp2};
ghost use Rattle.jp2_read.specs.Cursor.{state_of};
ghost use Rattle.jp2_whole.specs.Quick.{Stands, Filled};

use answer::{Answer, Refusal, Refused};
use jp2_read::{Phase, State};
use reading::Move;

// The state where a loop over tokens stopped.
fn standing(r: quick::Reached) -> State
    ensures { state_of result ≡ state r.g0 r.g2 plain }
{
    State {
        g0: r.g0,
        g2: r.g2,
        phase: Phase::Plain,
    }
}

// Reads a text on from a place into an output that has room for every cell and holds those before. What lies behind
// them is free.
fn decode(text: &[u8], from: quick::Reached, out: &mut [u32])
    requires text_in_bounds { length (reading jp2 text.now).cells ≤ length out.old }
    requires filled { Filled text.now from.at (state from.g0 from.g2 plain) from.n out.old }
    ensures { take (length (reading jp2 text.now).cells) out.new ≡ (reading jp2 text.now).cells }
{
    let reached = quick::fill_on(text, from, out);
    let mut n = reached.n;
    let mut st = standing(reached);
    for at in reached.at..text.len() {
        match jp2_read::feed(st, text[at]) {
            Move::Give(value, state) => {
                out[n] = value;
                st = state;
                n += 1;
            }
            Move::Go(state) => st = state,
            Move::Bad(_) => return,
        }
    }
}

// The first n cells go to the front of the output. A loop, since the archive for C asks for memcpy and memset alone,
// and `copy_from_slice` calls memmove here.
fn copy(cells: &[u32], n: usize, out: &mut [u32])
    requires n_in_bounds { n ≤ length cells.now }
    requires n_in_bounds_2 { n ≤ length out.old }
    ensures { out.new ≡ filled (take n cells.now) out.old }
{
    for k in 0..n {
        out[k] = cells[k];
    }
}

// The answer of a text that has room enough, on from a place, with nothing written.
fn measure(text: &[u8], from: quick::Reached) -> Answer
    requires { Stands text.now from }
    ensures { in_numbers result ≡ verdict_of (reading jp2 text.now) }
{
    let reached = quick::judge(text, from);
    let mut n = reached.n;
    let mut st = standing(reached);
    for at in reached.at..text.len() {
        match jp2_read::feed(st, text[at]) {
            Move::Give(_, state) => {
                st = state;
                n += 1;
            }
            Move::Go(state) => st = state,
            Move::Bad(why) => return Err(Refused(why, at)),
        }
    }
    jp2_read::finish(text.len(), n, st)
}

// Reads a text by way of a buffer. The whole text is judged before a cell is written to the output: the cells that the
// buffer has no room for are counted, and read a second time.
fn through(text: &[u8], cells: &mut [u32], out: &mut [u32]) -> Answer
    requires { length text.now ≤ limit }
    ensures { leaves result out.new ≡ read_into jp2 text.now out.old }
{
    let start = quick::Reached {
        at: 0,
        n: 0,
        g0: 6,
        g2: 0,
    };
    let r = quick::fill_on(text, start, cells);
    let found = measure(text, r);
    match found {
        Err(_) => {
            return found;
        }
        Ok(n) => {
            if out.len() < n {
                return Err(Refused(Refusal::NoRoom, n));
            }
            copy(cells, r.n, out);
            decode(text, r, &mut out[..n]);
            found
        }
    }
}

// By way of a buffer of N cells on the stack. Each size is a function, so that LLVM lays their buffers over each other.
fn through_in<const N: usize>(text: &[u8], out: &mut [u32]) -> Answer
    requires { (length text.now ≤ limit) × (N < 2 ^ 16) }
    ensures { leaves result out.new ≡ read_into jp2 text.now out.old }
{
    let mut cells = [0; N];
    through(text, &mut cells, out)
}

// Reads a text into an output. The buffers are on the stack, 48 KiB at most, whatever the limit; a short text clears a
// small one only.
pub fn read(text: &[u8], out: &mut [u32]) -> Answer
    ensures { leaves result out.new ≡ read_into jp2 text.now out.old }
{
    if answer::over_limit(text.len()) {
        return answer::too_long();
    }
    if text.len() <= 256 {
        return through_in::<256>(text, out);
    }
    if text.len() <= 1024 {
        return through_in::<1024>(text, out);
    }
    if text.len() <= 4096 {
        return through_in::<4096>(text, out);
    }
    through_in::<12288>(text, out)
}

// The text is accepted and reads as the cells. Nothing is lent to be written.
pub fn reads_as(text: &[u8], cells: &[u32]) -> bool
    ensures { result ≡ reads_as jp2 text.now cells.now }
{
    let reached = quick::follow(text, cells);
    let mut n = reached.n;
    let mut st = standing(reached);
    for at in reached.at..text.len() {
        match jp2_read::feed(st, text[at]) {
            Move::Give(value, state) => {
                if cells.len() <= n {
                    return false;
                }
                if cells[n] != value {
                    return false;
                }
                st = state;
                n += 1;
            }
            Move::Go(state) => st = state,
            Move::Bad(_) => return false,
        }
    }
    match jp2_read::finish(text.len(), n, st) {
        Ok(_) => n == cells.len(),
        Err(_) => false,
    }
}
