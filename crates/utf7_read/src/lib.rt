// Reading UTF-7: a byte and a cell at a time.
#![tactic(auto)]

ghost use Rattle.std.specs.Prelude.{◌≡◌, true, ◌++◌, ◌+◌, ◌<◌, ◌≤◌, ◌^◌, length, get_or};
ghost use Rattle.bits.specs.Bits.{bits};
ghost use Rattle.answer.specs.Answer.{in_numbers};
ghost use Rattle.reading.specs.Reading.{closing};
ghost use Rattle.reading.specs.Stepping.{at_start};
ghost use Rattle.reading.specs.Decoding.{told, told_move, Moves, Leads, Gets};
ghost use Rattle.alphabet.specs.Letters.{set_b, slash};
ghost use Rattle.utf7.specs.Sets.{direct};
ghost use Rattle.utf7.specs.Rule.{Shift, utf7, outside_does, unit_does, may_end, end_does, low_does, byte_does, ends_in};
ghost use Rattle.utf7_read.specs.Cursor.{shift_of, cursor_of, step_of, Settled, settled_back, move_of, utf7_code};
ghost use Rattle.utf7_read.specs.declared.State.TheVariants.{Outside, Run};

use answer::{Answer, Refusal, Refused};
use reading::{Ahead, Cursor, Decoder, Move, Stepped};

// Where a reader stands to runs.
#[derive(Clone, Copy)]
pub enum State {
    Outside,
    // directly after a '+'
    Opening,
    // in a run: how many bits are pending, and their value
    Run(u32, u32),
}

// A byte outside a run.
fn outside(b: u8) -> Move<State>
    requires { b < 128 }
    ensures { Moves utf7_code result (outside_does b) }
{
    if b == 43 {
        return Move::Go(State::Opening);
    }
    if utf7::is_direct(b as u32) {
        return Move::Give(b as u32, State::Outside);
    }
    Move::Bad(Refusal::StrayByte)
}

// A letter of value x in a run, after n pending bits of value v.
fn letter(n: u32, v: u32, x: u32) -> Move<State>
    requires { (n < 16) × (v < 2 ^ n) × (x < 64) }
    ensures { Moves utf7_code result (unit_does (bits n v ++ bits 6 x)) }
{
    let all = v * 64 + x;
    if n < 10 {
        return Move::Go(State::Run(n + 6, all));
    }
    let k = n - 10;
    let w = bits::power(k);
    Move::Give(all / w, State::Run(k, all % w))
}

// A run may end with n left-over bits of value v.
fn may_end(n: u32, v: u32) -> bool
    requires { v < 2 ^ n }
    ensures { result ≡ may_end (bits n v) }
{
    if v != 0 {
        return false;
    }
    n < 6
}

// A byte that ends a run with n left-over bits of value v.
fn close(n: u32, v: u32, b: u8) -> Move<State>
    requires { (b < 128) × (v < 2 ^ n) }
    ensures { Moves utf7_code result (end_does (may_end (bits n v)) b) }
{
    if may_end(n, v) {
        if b == 45 {
            return Move::Go(State::Outside);
        }
        return outside(b);
    }
    Move::Bad(Refusal::LeftOverBits)
}

fn low(st: State, b: u8) -> Move<State>
    requires { (b < 128) × Settled st }
    ensures { Moves utf7_code result (low_does (shift_of st) b) }
{
    let x = alphabet::value_of(b'/', b);
    match st {
        State::Outside => outside(b),
        State::Opening => {
            if x < 64 {
                return letter(0, 0, x);
            }
            if b == 45 {
                return Move::Give(43, State::Outside);
            }
            Move::Bad(Refusal::LoneSign)
        }
        State::Run(n, v) => {
            if 63 < x {
                return close(n, v, b);
            }
            letter(n, v, x)
        }
    }
}

// The '-' comes that ends a run with n left-over bits of value v, and it may end.
fn closes(text: &[u8], at: usize, n: u32, v: u32) -> bool
    requires { v < 2 ^ n }
    ensures { result ≡ true → (at < length text.now) × (get_or text.now at 0 ≡ 45) × (may_end (bits n v) ≡ true) }
{
    if at < text.len() {
        if text[at] == b'-' {
            return may_end(n, v);
        }
    }
    false
}

// Outside a run that ends here, or where the reader stands.
fn closed(text: &[u8], at: usize, st: State) -> (usize, State)
    requires { Settled st }
    ensures { Leads utf7_code text.now at st result.0 result.1 }
{
    if let State::Run(n, v) = st {
        if closes(text, at, n, v) {
            return (at + 1, State::Outside);
        }
    }
    (at, st)
}

// '+' and a letter come.
fn opens(text: &[u8], at: usize) -> bool
    ensures { result ≡ true → (at + 1 < length text.now) × (get_or text.now at 0 ≡ 43) × (set_b slash (get_or text.now (at + 1) 0) ≡ true) }
{
    if at < text.len() {
        if text[at] == b'+' {
            if at + 1 < text.len() {
                return alphabet::value_of(b'/', text[at + 1]) < 64;
            }
        }
    }
    false
}

// In a run that opens here, with no bits yet, or where the reader stands: a letter does in such a run what it does directly after the '+'.
fn opened(text: &[u8], at: usize, st: State) -> (usize, State)
    requires { Settled st }
    ensures { Leads utf7_code text.now at st result.0 result.1 }
{
    if let State::Outside = st {
        if opens(text, at) {
            return (at + 1, State::Run(0, 0));
        }
    }
    (at, st)
}

// A byte that is a cell by itself comes.
fn is_alone(text: &[u8], at: usize, st: State) -> bool
    ensures { result ≡ true → (st ≡ Outside) × (at < length text.now) × (direct (get_or text.now at 0) ≡ true) }
{
    if let State::Outside = st {
        if at < text.len() {
            return utf7::is_direct_byte(text[at]);
        }
    }
    false
}

// Over letters in a run, until a unit is complete or something else comes.
fn letters(text: &[u8], from: usize, pending: u32, value: u32) -> Ahead<State>
    requires { Settled (Run pending value) }
    ensures { Gets utf7_code text.now from (Run pending value) result }
{
    let mut at = from;
    let mut n = pending;
    let mut v = value;
    while at < text.len() {
        let x = alphabet::value_of(b'/', text[at]);
        if 63 < x {
            break;
        }
        let all = v * 64 + x;
        at += 1;
        if n < 10 {
            n += 6;
            v = all;
        } else {
            let k = n - 10;
            let w = bits::power(k);
            return Ahead {
                cell: Some(reading::mark(all / w, (n as usize + 11) / 6, at)),
                at,
                state: State::Run(k, all % w),
            };
        }
    }
    Ahead {
        cell: None,
        at,
        state: State::Run(n, v),
    }
}

// Over what most texts are made of.
fn get_ahead(text: &[u8], from: usize, given: State) -> Ahead<State>
    requires { Settled given }
    ensures { Gets utf7_code text.now from given result }
{
    let (at, st) = closed(text, from, given);
    if is_alone(text, at, st) {
        let cell = Some(reading::mark(text[at] as u32, 1, at + 1));
        let state = State::Outside;
        return Ahead {
            cell,
            at: at + 1,
            state,
        };
    }
    let (at, st) = opened(text, at, st);
    if let State::Run(n, v) = st {
        return letters(text, at, n, v);
    }
    Ahead {
        cell: None,
        at,
        state: st,
    }
}

impl Decoder for State {
    ghost Meaning = { Shift };

    ghost code = { utf7_code };

    ghost writes_back = { settled_back };

    fn settled(self) -> State {
        match self {
            State::Outside => State::Outside,
            State::Opening => State::Opening,
            State::Run(n, v) => {
                let k = n % 16;
                let w = bits::power(k);
                State::Run(k, v % w)
            }
        }
    }

    fn feed(self, b: u8) -> Move<State> {
        if b < 128 {
            return low(self.settled(), b);
        }
        Move::Bad(Refusal::HighByte)
    }

    fn finish(self, size: usize, handed: usize) -> Answer {
        match self.settled() {
            State::Outside => Ok(handed),
            State::Opening => Err(Refused(Refusal::LoneSign, size)),
            State::Run(n, v) => {
                if may_end(n, v) {
                    return Ok(handed);
                }
                Err(Refused(Refusal::LeftOverBits, size))
            }
        }
    }

    fn width(self, b: u8) -> usize {
        match self.settled() {
            State::Outside => 1,
            State::Opening => 2,
            State::Run(n, _) => {
                if alphabet::value_of(b'/', b) < 64 {
                    return (n as usize + 11) / 6;
                }
                1
            }
        }
    }

    fn get_ahead(self, text: &[u8], from: usize) -> Ahead<State> {
        get_ahead(text, from, self.settled())
    }
}

// What a byte does in any state.
pub fn byte_does(st: State, b: u8) -> Move<State>
    ensures { told_move result ≡ move_of st b }
{
    st.feed(b)
}

// The answer of a text of some size that ends in any state, after some cells.
pub fn ends_in(size: usize, handed: usize, st: State) -> Answer
    ensures { in_numbers result ≡ closing (ends_in size (shift_of st)) handed }
{
    st.finish(size, handed)
}

// The cursor of a reader that has read nothing.
pub fn start() -> Cursor<State>
    ensures { result ≡ cursor_of (at_start utf7) }
{
    Cursor {
        at: 0,
        handed: 0,
        state: State::Outside,
    }
}

// The step from any cursor over a text.
pub fn step(text: &[u8], c: Cursor<State>) -> Stepped<State>
    ensures { told result ≡ step_of text.now c }
{
    reading::step(text, c)
}
