// What reading a text byte by byte means, over any rule: definitions in specs/, laws in proofs/. The code is that of a
// cell with its bytes, and of where a cursor of any numbers stands.
#![tactic(auto)]

ghost use Rattle.std.specs.Prelude.{◌≡◌, ◌≤◌};
ghost use Rattle.answer.specs.Answer.{in_numbers};
ghost use Rattle.reading.specs.Reading.{closing};
ghost use Rattle.reading.specs.Spans.{marked_as, last_bytes, Takes};
ghost use Rattle.reading.specs.Stepping.{least, onward};
ghost use Rattle.reading.specs.Decoding.{Code, cursor_by, told, step_by, Moves, step_from, Gets};

use answer::{Answer, Refusal, Refused};
use std::ops::ControlFlow;

// A cell, and where its bytes in the text begin and end: from `begin` to just before `end`.
#[derive(Clone, Copy)]
pub struct Marked {
    pub value: u32,
    pub begin: usize,
    pub end: usize,
}

// What a byte does in a state.
#[derive(Clone, Copy)]
pub enum Move<S> {
    // completes a cell
    Give(u32, S),
    Go(S),
    Bad(Refusal),
}

// Where a reader stands in its text.
#[derive(Clone, Copy)]
pub struct Cursor<S> {
    pub at: usize,
    // how many cells were handed out
    pub handed: usize,
    pub state: S,
}

// A cell with its bytes, and where the next step starts.
#[derive(Clone, Copy)]
pub struct Given<S> {
    pub cell: Marked,
    pub next: Cursor<S>,
}

// What a step gives: the next cell, or the answer of reading the whole text with room enough.
pub type Stepped<S> = ControlFlow<Answer, Given<S>>;

// Where a reader gets without going byte by byte: behind a cell, or just to a place.
#[derive(Clone, Copy)]
pub struct Ahead<S> {
    pub cell: Option<Marked>,
    pub at: usize,
    pub state: S,
}

// The cell of the last bytes before a place; where there are fewer, of all.
pub fn mark(value: u32, count: usize, end: usize) -> Marked
    ensures { result ≡ marked_as value (last_bytes count end) }
{
    if end < count {
        return Marked {
            value,
            begin: 0,
            end,
        };
    }
    Marked {
        value,
        begin: end - count,
        end,
    }
}

// A number, or the most that it may be.
pub fn lesser(a: usize, b: usize) -> usize
    ensures { result ≡ least a b }
{
    if b < a {
        return b;
    }
    a
}

// A decoder's states: settled ones are numbers that are just as their meaning is written.
pub trait Decoder: Copy {
    ghost Meaning: { Type 0 };

    ghost code: { Code Self Meaning };

    // The settled state that means the same.
    fn settled(self) -> Self
        ensures { code.Settled result × (code.means result ≡ code.means self) };

    // What a byte does, in any state.
    fn feed(self, b: u8) -> Move<Self>
        ensures { Moves code result (code.rule.byte (code.means self) b) };

    // The answer of a text of some size that ends here, after some cells.
    fn finish(self, size: usize, handed: usize) -> Answer
        ensures { in_numbers result ≡ closing (code.rule.end size (code.means self)) handed };

    // How many bytes the cell has that this byte completes.
    fn width(self, b: u8) -> usize
        ensures { Takes (code.marking (code.means self) b) result };

    // Over what most texts are made of.
    fn get_ahead(self, text: &[u8], from: usize) -> Ahead<Self>
        ensures { Gets code text.now from self result };

    ghost writes_back: { (st : Self) → code.Settled st → code.writes (code.means st) ≡ st };
}

// The step from a place, a byte at a time.
fn step_on<D: Decoder>(text: &[u8], from: usize, handed: usize, state: D) -> Stepped<D>
    requires { handed ≤ from }
    ensures { told result ≡ onward (cursor_by D.code.writes) (step_from D.code text.now from state handed) }
{
    let mut at = from;
    let mut st = state;
    while at < text.len() {
        let b = text[at];
        match st.feed(b) {
            Move::Give(value, state) => {
                let cell = mark(value, st.width(b), at + 1);
                let next = Cursor {
                    at: at + 1,
                    handed: handed + 1,
                    state,
                };
                return ControlFlow::Continue(Given { cell, next });
            }
            Move::Go(state) => {
                st = state;
                at += 1;
            }
            Move::Bad(why) => {
                return ControlFlow::Break(Err(Refused(why, at)));
            }
        }
    }
    ControlFlow::Break(st.finish(text.len(), handed))
}

// The step from any cursor over a text.
pub fn step<D: Decoder>(text: &[u8], c: Cursor<D>) -> Stepped<D>
    ensures { told result ≡ step_by D.code text.now c }
{
    if answer::over_limit(text.len()) {
        return ControlFlow::Break(answer::too_long());
    }
    let at = lesser(c.at, text.len());
    let handed = lesser(c.handed, at);
    let a = c.state.get_ahead(text, at);
    match a.cell {
        Some(cell) => {
            let next = Cursor {
                at: a.at,
                handed: handed + 1,
                state: a.state,
            };
            ControlFlow::Continue(Given { cell, next })
        }
        None => step_on(text, a.at, handed, a.state),
    }
}
