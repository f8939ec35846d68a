// The numbers of a replace, PLACE COUNT CELL.., or of a squeeze, K, read by a rule as any text is: each is judged
// before one is put.
ghost use Rattle.std.specs.Prelude.{◌≡◌, ◌≤◌, ◌<◌, length};
ghost use Rattle.answer.specs.Answer.{in_numbers};
ghost use Rattle.answer.specs.Output.{leaves, filled};
ghost use Rattle.reading.specs.Reading.{reading, read_into, verdict_of, closing};
ghost use Rattle.commands.specs.Numbers.{digit_value, base, following, raised, byte_does, ends_in, numbers, does_of};

use crate::is_blank;
use answer::{Answer, Refusal, Refused};

// Between numbers, or in one with its value so far; beside it how many numbers came before, up to two.
#[derive(Clone, Copy)]
pub enum State {
    Gap(u32),
    Word(u32, u32),
}

// What a byte does.
#[derive(Clone, Copy)]
pub enum Move {
    Give(u32, State),
    Go(State),
    Bad(Refusal),
}

#[tactic(auto, unfolding(crate::specs::Numbers::digit_value))]
fn digit_value(b: u8) -> u32
    ensures { result ≡ digit_value b }
{
    match b {
        b'0'..=b'9' => b as u32 - 48,
        b'A'..=b'F' => b as u32 - 55,
        b'a'..=b'f' => b as u32 - 87,
        _ => 16,
    }
}

// Decimal or hex.
fn radix_of(seen: u32) -> u32
    ensures { result ≡ base seen }
{
    if seen < 2 { 10 } else { 16 }
}

// The numbers seen after one more, up to two.
fn more(seen: u32) -> u32
    ensures { result ≡ following seen }
{
    if seen < 2 { seen + 1 } else { 2 }
}

// A digit more of a number.
#[tactic(auto, unfolding(crate::specs::Numbers::raised))]
fn raise(seen: u32, value: u32, digit: u32) -> Move
    ensures { does_of result ≡ raised seen value digit }
{
    let radix = radix_of(seen);
    if radix <= digit {
        return Move::Bad(Refusal::StrayByte);
    }
    match u32::try_from(value as u64 * radix as u64 + digit as u64) {
        Ok(next) => Move::Go(State::Word(seen, next)),
        Err(_) => Move::Bad(Refusal::StrayByte),
    }
}

#[tactic(auto, unfolding(crate::specs::Numbers::byte_does))]
fn feed(st: State, b: u8) -> Move
    ensures { does_of result ≡ byte_does st b }
{
    match st {
        State::Gap(_) if is_blank(b) => Move::Go(st),
        State::Gap(seen) => raise(seen, 0, digit_value(b)),
        State::Word(seen, value) if is_blank(b) => Move::Give(value, State::Gap(more(seen))),
        State::Word(seen, value) => raise(seen, value, digit_value(b)),
    }
}

// The answer of a text of some size that ends in a state, after some numbers.
#[tactic(auto, unfolding(crate::specs::Numbers::ends_in))]
fn finish(asked: u32, size: usize, count: usize, st: State) -> Answer
    ensures { in_numbers result ≡ closing (ends_in asked size st) count }
{
    match st {
        State::Gap(seen) if seen == asked => Ok(count),
        _ => Err(Refused(Refusal::CutShort, size)),
    }
}

// The answer of reading a text with room enough.
fn count(asked: u32, text: &[u8]) -> Answer
    ensures { in_numbers result ≡ verdict_of (reading (numbers asked) text.now) }
{
    let mut n: usize = 0;
    let mut st = State::Gap(0);
    for (at, &b) in text.iter().enumerate() {
        match feed(st, b) {
            Move::Give(_, state) => {
                st = state;
                n += 1;
            }
            Move::Go(state) => st = state,
            Move::Bad(why) => return Err(Refused(why, at)),
        }
    }
    finish(asked, text.len(), n, st)
}

// The numbers of a text go to the front of the output.
fn fill(asked: u32, text: &[u8], out: &mut [u32])
    requires { length (reading (numbers asked) text.now).cells ≤ length out.old }
    ensures { out.new ≡ filled (reading (numbers asked) text.now).cells out.old }
{
    let mut n: usize = 0;
    let mut st = State::Gap(0);
    for &b in text {
        match feed(st, b) {
            Move::Give(value, state) => {
                out[n] = value;
                st = state;
                n += 1;
            }
            Move::Go(state) => st = state,
            Move::Bad(_) => return,
        }
    }
}

// Reads one number into an output, or two or more: PLACE, COUNT and the cells.
pub fn read(asked: u32, text: &[u8], out: &mut [u32]) -> Answer
    ensures { leaves result out.new ≡ read_into (numbers asked) text.now out.old }
{
    if answer::over_limit(text.len()) {
        return answer::too_long();
    }
    let n = count(asked, text)?;
    if out.len() < n {
        return Err(Refused(Refusal::NoRoom, n));
    }
    fill(asked, text, out);
    Ok(n)
}
