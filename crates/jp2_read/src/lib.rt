// Reading ISO-2022-JP-2: a byte and a cell at a time.
#![tactic(auto)]

pub mod escapes;
mod past;

ghost use Rattle.std.specs.Prelude.{◌≡◌, true, false, cond, ◌&&◌, ◌||◌, [], ◌∷◌, length, eqb, IfSome};
ghost use Rattle.std.specs.Prelude.{ℕ, ◌+◌, ◌*◌, ◌^◌, ◌<◌, ◌≤◌};
ghost use Rattle.answer.specs.Answer.{in_numbers};
ghost use Rattle.reading.specs.Reading.{give, closing};
ghost use Rattle.reading.specs.Stepping.{at_start};
ghost use Rattle.reading.specs.Decoding.{told, Gets};
ghost use Rattle.jp2.specs.Rule as rule;
ghost use Rattle.jp2.specs.Table.{row_at, is_list};
ghost use Rattle.jp2.specs.Rule.{plain, return, state, cell_of, graphic, designated, in_phase, end_phase, jp2, single_does, first_does, second_does, between_does, shifted_does, escape_does, byte_does, ends_in};
ghost use Rattle.jp2_read.specs.Cursor.{phase_of, state_of, in_escape, state_for, state_back, does_of, cursor_of, step_of, jp2_code};
ghost use Rattle.jp2_read.specs.Passing.{at_rest, marked_at, Hands};

use answer::{Answer, Refusal, Refused};
use reading::{Ahead, Cursor, Decoder, Marked, Move, Stepped};

// Where a reader stands to cells and escapes.
#[derive(Clone, Copy)]
pub enum Phase {
    // between cells
    Plain,
    // directly after a CR
    Return,
    // after the first byte of a pair
    First(u8),
    // after ESC N
    Shifted,
    // inside an escape, with its bytes after ESC
    Escape,
    Escape1(u8),
    Escape2(u8, u8),
}

// The numbers of the sets in G0 and G2 (0: nothing), and the phase.
#[derive(Clone, Copy)]
pub struct State {
    pub g0: u16,
    pub g2: u16,
    pub phase: Phase,
}

// The cell of a byte and of a pair, by the set's number.
fn cell_of(number: u16, b: u8) -> u32
    ensures { result ≡ cell_of number b }
{
    (number as u32) * 65536 + (b as u32)
}

fn pair_of(number: u16, a: u8, b: u8) -> u32
    ensures { result ≡ cell_of number (a * 256 + b) }
{
    (number as u32) * 65536 + ((a as u32) * 256 + (b as u32))
}

// The number that a single byte carries.
fn carried(g0: u16, b: u8) -> u16
    ensures { result ≡ cond (graphic b) g0 6 }
{
    if jp2::is_graphic(b as u32) {
        return g0;
    }
    6
}

// G2 after a single byte.
fn uncleared(g2: u16, cr: bool, b: u8) -> u16
    ensures { result ≡ cond (cr && eqb b 10) 0 g2 }
{
    if cr {
        if b == 10 {
            return 0;
        }
    }
    g2
}

// The phase after a single byte.
fn after_single(b: u8) -> Phase
    ensures { phase_of result ≡ cond (eqb b 13) return plain }
{
    if b == 13 {
        return Phase::Return;
    }
    Phase::Plain
}

// A byte of a set of single bytes, also directly after a CR.
fn single(g0: u16, g2: u16, cr: bool, b: u8) -> Move<State>
    ensures { does_of result ≡ single_does g0 g2 cr b }
{
    if b == 14 {
        return Move::Bad(Refusal::StrayByte);
    }
    if b == 15 {
        return Move::Bad(Refusal::StrayByte);
    }
    let number = carried(g0, b);
    let left = uncleared(g2, cr, b);
    let phase = after_single(b);
    Move::Give(
        cell_of(number, b),
        State {
            g0,
            g2: left,
            phase,
        },
    )
}

// The first byte of a pair.
fn first(g0: u16, g2: u16, b: u8) -> Move<State>
    ensures { does_of result ≡ first_does g0 g2 b }
{
    if jp2::is_graphic(b as u32) {
        return Move::Go(State {
            g0,
            g2,
            phase: Phase::First(b),
        });
    }
    Move::Bad(Refusal::StrayByte)
}

// The second byte of a pair, after the first, a.
fn second(g0: u16, g2: u16, a: u8, b: u8) -> Move<State>
    ensures { does_of result ≡ second_does g0 g2 a b }
{
    if jp2::is_graphic(b as u32) {
        return Move::Give(
            pair_of(g0, a, b),
            State {
                g0,
                g2,
                phase: Phase::Plain,
            },
        );
    }
    Move::Bad(Refusal::StrayByte)
}

// A byte where a cell or an escape starts.
fn between(g0: u16, g2: u16, cr: bool, b: u8) -> Move<State>
    ensures { does_of result ≡ between_does g0 g2 cr b }
{
    if b == 27 {
        return Move::Go(State {
            g0,
            g2,
            phase: Phase::Escape,
        });
    }
    if g0 == 6 {
        return single(g0, g2, cr, b);
    }
    if g0 == 14 {
        return single(g0, g2, cr, b);
    }
    first(g0, g2, b)
}

// A byte after ESC N.
fn shifted(g0: u16, g2: u16, b: u8) -> Move<State>
    ensures { does_of result ≡ shifted_does g0 g2 b }
{
    if b < 32 {
        return Move::Bad(Refusal::StrayByte);
    }
    Move::Give(
        cell_of(g2, b),
        State {
            g0,
            g2,
            phase: Phase::Plain,
        },
    )
}

// These bytes are ESC N.
fn is_shift(bytes: &[u8]) -> bool
    ensures { result ≡ is_list bytes.now (27 ∷ 78 ∷ []) }
{
    if bytes.len() != 2 {
        return false;
    }
    if bytes[0] != 27 {
        return false;
    }
    bytes[1] == 78
}

// The state that a row of the table leads to.
fn designate(g0: u16, g2: u16, row: usize) -> State
    ensures { state_of result ≡ designated g0 g2 (row_at row) }
{
    let d = jp2::row_at(row);
    if d.to == 2 {
        return State {
            g0,
            g2: d.number,
            phase: Phase::Plain,
        };
    }
    State {
        g0: d.number,
        g2,
        phase: Phase::Plain,
    }
}

// The phase inside an escape.
fn inside(bytes: &[u8]) -> Phase
    ensures { result ≡ in_escape bytes.now }
{
    if bytes.len() < 2 {
        return Phase::Escape;
    }
    if bytes.len() == 2 {
        return Phase::Escape1(bytes[1]);
    }
    Phase::Escape2(bytes[1], bytes[2])
}

// The last of the bytes since ESC.
fn escape(g0: u16, g2: u16, bytes: &[u8]) -> Move<State>
    requires { 0 < length bytes.now }
    ensures { does_of result ≡ escape_does g0 g2 bytes.now }
{
    if is_shift(bytes) {
        if g2 == 0 {
            return Move::Bad(Refusal::EmptyG2);
        }
        return Move::Go(State {
            g0,
            g2,
            phase: Phase::Shifted,
        });
    }
    let row = jp2::row_of_escape(bytes);
    if row < 9 {
        let state = designate(g0, g2, row);
        return Move::Go(state);
    }
    if jp2::row_begun_by(bytes) < 9 {
        let phase = inside(bytes);
        return Move::Go(State { g0, g2, phase });
    }
    Move::Bad(Refusal::UnknownEscape)
}

// A byte below 128.
fn low(st: State, b: u8) -> Move<State>
    ensures { does_of result ≡ in_phase (phase_of st.phase) st.g0 st.g2 b }
{
    let g0 = st.g0;
    let g2 = st.g2;
    let phase = st.phase;
    match phase {
        Phase::Plain => between(g0, g2, false, b),
        Phase::Return => between(g0, g2, true, b),
        Phase::First(a) => second(g0, g2, a, b),
        Phase::Shifted => shifted(g0, g2, b),
        Phase::Escape => {
            let bytes = [27, b];
            escape(g0, g2, &bytes)
        }
        Phase::Escape1(x) => {
            let bytes = [27, x, b];
            escape(g0, g2, &bytes)
        }
        Phase::Escape2(x, y) => {
            let bytes = [27, x, y, b];
            escape(g0, g2, &bytes)
        }
    }
}

// What a byte does in a state.
pub fn feed(st: State, b: u8) -> Move<State>
    ensures { does_of result ≡ byte_does (state_of st) b }
{
    if b < 128 {
        return low(st, b);
    }
    Move::Bad(Refusal::HighByte)
}

// The answer of a text of some size that ends between cells.
fn finish_plain(size: usize, handed: usize, g0: u16) -> Answer
    ensures { in_numbers result ≡ closing (end_phase plain g0 size) handed }
{
    if g0 == 6 {
        return Ok(handed);
    }
    Err(Refused(Refusal::NotAscii, size))
}

// The answer of a text of some size that ends in a state, after some cells.
pub fn finish(size: usize, handed: usize, st: State) -> Answer
    ensures { in_numbers result ≡ closing (ends_in size (state_of st)) handed }
{
    let phase = st.phase;
    match phase {
        Phase::Plain => finish_plain(size, handed, st.g0),
        Phase::Return => finish_plain(size, handed, st.g0),
        Phase::First(_) => Err(Refused(Refusal::CutShort, size)),
        Phase::Shifted => Err(Refused(Refusal::CutShort, size)),
        Phase::Escape => Err(Refused(Refusal::CutShort, size)),
        Phase::Escape1(_) => Err(Refused(Refusal::CutShort, size)),
        Phase::Escape2(_, _) => Err(Refused(Refusal::CutShort, size)),
    }
}

// The state at the start of a text.
pub fn begin() -> State
    ensures { result ≡ state_for jp2.start }
{
    State {
        g0: 6,
        g2: 0,
        phase: Phase::Plain,
    }
}

fn is_code(b: u8) -> bool
    ensures { result ≡ graphic b }
{
    (33 <= b) & (b <= 126)
}

// ESC N and a byte may be a cell.
fn is_shifted(g2: u16, x: u8, y: u8) -> bool
    ensures { result ≡ true → (x ≡ 78) × (eqb g2 0 ≡ false) × (32 ≤ y) × (y ≤ 127) }
{
    (x == 78) & (g2 != 0) & (32 <= y) & (y < 128)
}

// The cell of a byte of a set of single bytes that changes nothing.
fn single_next(g0: u16, b: u8) -> Option<u32>
    requires { (eqb g0 6 || eqb g0 14) ≡ true }
    ensures { IfSome result (λ value. (g2 : ℕ) → byte_does (state g0 g2 plain) b ≡ give value (state g0 g2 plain)) }
{
    if is_code(b) {
        return Some(cell_of(g0, b));
    }
    if b == 32 {
        return Some(cell_of(6, b));
    }
    None
}

// The cell of the next bytes.
fn marked(value: u32, at: usize, count: usize) -> Marked
    requires { at + count < 2 ^ 64 }
    ensures { result ≡ marked_at value at count }
{
    Marked {
        value,
        begin: at,
        end: at + count,
    }
}

// A cell that comes between cells, with all its bytes: of a single-byte set, a pair, or ESC N and a byte.
fn cell_next(text: &[u8], at: usize, g0: u16, g2: u16) -> Option<Marked>
    requires { at < length text.now }
    ensures { IfSome result (Hands text.now at (at_rest g0 g2)) }
{
    if text.len() < at + 3 {
        return None;
    }
    let b = text[at];
    let x = text[at + 1];
    let y = text[at + 2];
    if b == 27 {
        if is_shifted(g2, x, y) {
            return Some(marked(cell_of(g2, y), at, 3));
        }
        return None;
    }
    if (g0 == 6) | (g0 == 14) {
        return Some(marked(single_next(g0, b)?, at, 1));
    }
    if is_code(b) & is_code(x) {
        return Some(marked(pair_of(g0, b, x), at, 2));
    }
    None
}

// To the cell that comes next, where the reader stands between cells.
fn to_cell(text: &[u8], at: usize, st: State) -> Ahead<State>
    ensures { Gets jp2_code text.now at st result }
{
    if let Phase::Plain = st.phase {
        if at < text.len() {
            if let Some(cell) = cell_next(text, at, st.g0, st.g2) {
                return Ahead {
                    cell: Some(cell),
                    at: cell.end,
                    state: st,
                };
            }
        }
    }
    Ahead {
        cell: None,
        at,
        state: st,
    }
}

impl Decoder for State {
    ghost Meaning = { rule.State };

    ghost code = { jp2_code };

    ghost writes_back = { λ st _. state_back st };

    fn settled(self) -> State {
        self
    }

    fn feed(self, b: u8) -> Move<State> {
        feed(self, b)
    }

    fn finish(self, size: usize, handed: usize) -> Answer {
        finish(size, handed, self)
    }

    #[tactic(auto, unfolding(jp2::specs::Spans::span_in))]
    fn width(self, _: u8) -> usize {
        match self.phase {
            Phase::Plain => 1,
            Phase::Return => 1,
            Phase::First(_) => 2,
            Phase::Shifted => 3,
            Phase::Escape => 1,
            Phase::Escape1(_) => 1,
            Phase::Escape2(_, _) => 1,
        }
    }

    // To a cell that comes next, also past designations. From the settled state, as a step of each reader goes.
    fn get_ahead(self, text: &[u8], from: usize) -> Ahead<State> {
        let st = self.settled();
        let a = to_cell(text, from, st);
        if a.cell.is_some() {
            return a;
        }
        let (at, state) = past::pass(text, from, st);
        to_cell(text, at, state)
    }
}

// The cursor of a reader that has read nothing.
pub fn start() -> Cursor<State>
    ensures { result ≡ cursor_of (at_start jp2) }
{
    Cursor {
        at: 0,
        handed: 0,
        state: begin(),
    }
}

// The step from any cursor over a text.
pub fn step(text: &[u8], c: Cursor<State>) -> Stepped<State>
    ensures { told result ≡ step_of text.now c }
{
    reading::step(text, c)
}
