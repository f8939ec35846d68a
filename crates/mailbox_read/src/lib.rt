// Reading mailbox names: a byte and a cell at a time.
#![tactic(auto)]

ghost use Rattle.std.specs.Prelude.{◌≡◌, ◌≢◌, true, ◌++◌, ◌+◌, ◌<◌, ◌≤◌, ◌^◌, length, get_or};
ghost use Rattle.bits.specs.Bits.{bits};
ghost use Rattle.answer.specs.Answer.{in_numbers};
ghost use Rattle.reading.specs.Reading.{closing};
ghost use Rattle.reading.specs.Stepping.{at_start};
ghost use Rattle.reading.specs.Decoding.{told, told_move, Moves, Leads, Gets};
ghost use Rattle.alphabet.specs.Letters.{set_b, comma};
ghost use Rattle.utf7.specs.Sets.{printable};
ghost use Rattle.mailbox.specs.Rule.{Shift, mailbox, outside_does, unit_does, close_does, low_does, byte_does, ends_in};
ghost use Rattle.mailbox_read.specs.Cursor.{shift_of, cursor_of, step_of, Settled, settled_back, move_of, mailbox_code};
ghost use Rattle.mailbox_read.specs.Cursor.{Between};
ghost use Rattle.mailbox_read.specs.declared.State.TheVariants.{Run};

use answer::{Answer, Refusal, Refused};
use reading::{Ahead, Cursor, Decoder, Move, Stepped};

// Where a reader stands to runs.
#[derive(Clone, Copy)]
pub enum State {
    // and whether a run was closed directly before
    Outside(bool),
    // directly after a '&', and whether a run was closed directly before that
    Opening(bool),
    // in a run: how many bits are pending, and their value
    Run(u32, u32),
}

fn is_printable(u: u32) -> bool
    ensures { result ≡ printable u }
{
    if u < 32 {
        return false;
    }
    u <= 126
}

// A byte outside a run.
fn outside(after: bool, b: u8) -> Move<State>
    ensures { Moves mailbox_code result (outside_does after b) }
{
    if b == 38 {
        return Move::Go(State::Opening(after));
    }
    if is_printable(b as u32) {
        return Move::Give(b as u32, State::Outside(false));
    }
    Move::Bad(Refusal::StrayByte)
}

// A letter of value x in a run, after n pending bits of value v.
fn letter(n: u32, v: u32, x: u32) -> Move<State>
    requires { (n < 16) × (v < 2 ^ n) × (x < 64) }
    ensures { Moves mailbox_code result (unit_does (bits n v ++ bits 6 x)) }
{
    let all = v * 64 + x;
    if n < 10 {
        return Move::Go(State::Run(n + 6, all));
    }
    let k = n - 10;
    let w = bits::power(k);
    let unit = all / w;
    if is_printable(unit) {
        return Move::Bad(Refusal::NeedlessShift);
    }
    Move::Give(unit, State::Run(k, all % w))
}

// The '-' that closes a run with n left-over bits of value v.
fn close(n: u32, v: u32) -> Move<State>
    requires { v < 2 ^ n }
    ensures { Moves mailbox_code result (close_does (bits n v)) }
{
    if v != 0 {
        return Move::Bad(Refusal::LeftOverBits);
    }
    if n < 6 {
        return Move::Go(State::Outside(true));
    }
    Move::Bad(Refusal::NeedlessShift)
}

fn low(st: State, b: u8) -> Move<State>
    requires { Settled st }
    ensures { Moves mailbox_code result (low_does (shift_of st) b) }
{
    let x = alphabet::value_of(b',', b);
    match st {
        State::Outside(after) => outside(after, b),
        State::Opening(after) => {
            if x < 64 {
                if after {
                    return Move::Bad(Refusal::NeedlessShift);
                }
                return letter(0, 0, x);
            }
            if b == 45 {
                return Move::Give(38, State::Outside(false));
            }
            Move::Bad(Refusal::LoneSign)
        }
        State::Run(n, v) => {
            if x < 64 {
                return letter(n, v, x);
            }
            if b == 45 {
                return close(n, v);
            }
            Move::Bad(Refusal::StrayByte)
        }
    }
}

// The '-' comes that closes a run with n left-over bits of value v, and it may close.
fn closes(text: &[u8], at: usize, n: u32, v: u32) -> bool
    ensures { result ≡ true → (at < length text.now) × (get_or text.now at 0 ≡ 45)
        × (v ≡ 0) × (n < 6) }
{
    if at < text.len() {
        if text[at] == b'-' {
            if v == 0 {
                return n < 6;
            }
        }
    }
    false
}

// Outside a run that closes here, or where the reader stands.
fn closed(text: &[u8], at: usize, st: State) -> (usize, State)
    requires { Settled st }
    ensures { Leads mailbox_code text.now at st result.0 result.1 }
{
    if let State::Run(n, v) = st {
        if closes(text, at, n, v) {
            return (at + 1, State::Outside(true));
        }
    }
    (at, st)
}

// '&' and a letter come.
fn opens(text: &[u8], at: usize) -> bool
    ensures { result ≡ true → (at + 1 < length text.now) × (get_or text.now at 0 ≡ 38)
        × (set_b comma (get_or text.now (at + 1) 0) ≡ true) }
{
    if at < text.len() {
        if text[at] == b'&' {
            if at + 1 < text.len() {
                return alphabet::value_of(b',', text[at + 1]) < 64;
            }
        }
    }
    false
}

// In a run that opens here, with no bits yet, or where the reader stands: a letter does in such a run what it does directly after the
// '&', unless a run was closed directly before that.
fn opened(text: &[u8], at: usize, st: State) -> (usize, State)
    requires { Settled st }
    ensures { Leads mailbox_code text.now at st result.0 result.1 }
{
    if let State::Outside(after) = st {
        if !after {
            if opens(text, at) {
                return (at + 1, State::Run(0, 0));
            }
        }
    }
    (at, st)
}

// A byte that is a cell by itself comes.
fn is_alone(text: &[u8], at: usize, st: State) -> bool
    ensures { result ≡ true → Between st × (at < length text.now)
        × (get_or text.now at 0 ≢ 38) × (printable (get_or text.now at 0) ≡ true) }
{
    if let State::Outside(_) = st {
        if at < text.len() {
            let b = text[at];
            if b != b'&' {
                return is_printable(b as u32);
            }
        }
    }
    false
}

// Over letters in a run, until a unit is complete or something else comes.
fn letters(text: &[u8], from: usize, pending: u32, value: u32) -> Ahead<State>
    requires { Settled (Run pending value) }
    ensures { Gets mailbox_code text.now from (Run pending value) result }
{
    let mut at = from;
    let mut n = pending;
    let mut v = value;
    while at < text.len() {
        let x = alphabet::value_of(b',', text[at]);
        if 63 < x {
            break;
        }
        let all = v * 64 + x;
        if n < 10 {
            at += 1;
            n += 6;
            v = all;
        } else {
            let w = bits::power(n - 10);
            let unit = all / w;
            if is_printable(unit) {
                break;
            }
            return Ahead {
                cell: Some(reading::mark(unit, (n as usize + 11) / 6, at + 1)),
                at: at + 1,
                state: State::Run(n - 10, all % w),
            };
        }
    }
    Ahead {
        cell: None,
        at,
        state: State::Run(n, v),
    }
}

// Over what most names are made of.
fn get_ahead(text: &[u8], from: usize, given: State) -> Ahead<State>
    requires { Settled given }
    ensures { Gets mailbox_code text.now from given result }
{
    let (at, st) = closed(text, from, given);
    if is_alone(text, at, st) {
        let cell = Some(reading::mark(text[at] as u32, 1, at + 1));
        let state = State::Outside(false);
        return Ahead {
            cell,
            at: at + 1,
            state,
        };
    }
    let (at, st) = opened(text, at, st);
    if let State::Run(n, v) = st {
        return letters(text, at, n, v);
    }
    Ahead {
        cell: None,
        at,
        state: st,
    }
}

impl Decoder for State {
    ghost Meaning = { Shift };

    ghost code = { mailbox_code };

    ghost writes_back = { settled_back };

    fn settled(self) -> State {
        match self {
            State::Outside(after) => State::Outside(after),
            State::Opening(after) => State::Opening(after),
            State::Run(n, v) => {
                let k = n % 16;
                let w = bits::power(k);
                State::Run(k, v % w)
            }
        }
    }

    fn feed(self, b: u8) -> Move<State> {
        if b < 128 {
            return low(self.settled(), b);
        }
        Move::Bad(Refusal::HighByte)
    }

    fn finish(self, size: usize, handed: usize) -> Answer {
        finish(size, handed, self)
    }

    fn width(self, b: u8) -> usize {
        match self.settled() {
            State::Outside(_) => 1,
            State::Opening(_) => 2,
            State::Run(n, _) => (n as usize + 11) / 6,
        }
    }

    fn get_ahead(self, text: &[u8], from: usize) -> Ahead<State> {
        get_ahead(text, from, self.settled())
    }
}

// What a byte does in any state.
pub fn byte_does(st: State, b: u8) -> Move<State>
    ensures { told_move result ≡ move_of st b }
{
    st.feed(b)
}

// The answer of a text of some size that ends in any state, after some cells.
pub fn finish(size: usize, handed: usize, st: State) -> Answer
    ensures { in_numbers result ≡ closing (ends_in size (shift_of st)) handed }
{
    match st {
        State::Outside(_) => Ok(handed),
        State::Opening(_) => Err(Refused(Refusal::LoneSign, size)),
        State::Run(_, _) => Err(Refused(Refusal::CutShort, size)),
    }
}

// The cursor of a reader that has read nothing.
pub fn start() -> Cursor<State>
    ensures { result ≡ cursor_of (at_start mailbox) }
{
    Cursor {
        at: 0,
        handed: 0,
        state: State::Outside(false),
    }
}

// The step from any cursor over a text.
pub fn step(text: &[u8], c: Cursor<State>) -> Stepped<State>
    ensures { told result ≡ step_of text.now c }
{
    reading::step(text, c)
}
