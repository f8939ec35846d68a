// Stepping for hosts: a cursor of plain numbers for each format. Every cursor is taken, whatever its numbers.
#![tactic(auto)]

ghost use Rattle.std.specs.Prelude.{◌≡◌};
ghost use Rattle.reading.specs.Decoding.{told};
ghost use Rattle.host_steps.specs.Steps.{step_in, HandsOn, host_start, host_step, shift_in, utf7_in, utf7_out, utf7_host, utf7_told, name_shift_in, mailbox_in, mailbox_out, mailbox_host, mailbox_told, phase_in, jp2_in, phased_at, jp2_out, jp2_host, jp2_told};

use host_numbers::Numbers;
use reading::{Cursor, Marked, Stepped};
use std::ops::ControlFlow;

// A place in a UTF-7 text: its shift is 0 outside runs, 1 after a '+', else in a run with its pending bits, their count and value.
#[repr(C)]
#[derive(Clone, Copy)]
pub struct HostUtf7Cursor {
    pub at: usize,
    pub handed: usize,
    pub shift: u32,
    pub pending: u32,
    pub value: u32,
}

// A step: 1, the cell and where its bytes begin and end, or 0 and the final answer; and the cursor for the next step.
#[repr(C)]
#[derive(Clone, Copy)]
pub struct HostUtf7Step {
    pub given: u32,
    pub cell: u32,
    pub begin: usize,
    pub end: usize,
    pub answer: Numbers,
    pub next: HostUtf7Cursor,
}

// A place in a mailbox name: its shift is 0 outside runs, 1 there directly after a run, 2 after a '&', 3 after a '&' directly after a
// run, else in a run with its pending bits, their count and value.
#[repr(C)]
#[derive(Clone, Copy)]
pub struct HostMailboxCursor {
    pub at: usize,
    pub handed: usize,
    pub shift: u32,
    pub pending: u32,
    pub value: u32,
}

#[repr(C)]
#[derive(Clone, Copy)]
pub struct HostMailboxStep {
    pub given: u32,
    pub cell: u32,
    pub begin: usize,
    pub end: usize,
    pub answer: Numbers,
    pub next: HostMailboxCursor,
}

// A place in a JP-2 text: the sets in G0 and G2 (0: none), and the phase with its bytes: 0 between cells, 1 after a CR, 2 after
// the first byte of a pair, 3 after ESC N, 4, 5 and 6 after ESC and none, one or two bytes more.
#[repr(C)]
#[derive(Clone, Copy)]
pub struct HostJp2Cursor {
    pub at: usize,
    pub handed: usize,
    pub g0: u16,
    pub g2: u16,
    pub phase: u8,
    pub first: u8,
    pub second: u8,
}

#[repr(C)]
#[derive(Clone, Copy)]
pub struct HostJp2Step {
    pub given: u32,
    pub cell: u32,
    pub begin: usize,
    pub end: usize,
    pub answer: Numbers,
    pub next: HostJp2Cursor,
}

// What a host is told of a step: whether a cell is given, the cell, the answer, and the next cursor, its own after the last cell.
fn told<S: Copy, C: From<Cursor<S>> + Copy>(found: Stepped<S>, own: C) -> (u32, Marked, Numbers, C)
    ensures { HandsOn C.from_gives own (told found) (step_in result) }
{
    match found {
        ControlFlow::Continue(given) => {
            let none = Numbers {
                number: 0,
                place: 0,
            };
            (1, given.cell, none, given.next.into())
        }
        ControlFlow::Break(answer) => {
            let none = Marked {
                value: 0,
                begin: 0,
                end: 0,
            };
            (0, none, Numbers::from(answer), own)
        }
    }
}

// UTF-7

#[tactic(auto, unfolding(crate::specs::Steps::shift_in))]
fn shift_in(shift: u32, pending: u32, value: u32) -> utf7_read::State
    ensures { result ≡ shift_in shift pending value }
{
    if shift == 0 {
        return utf7_read::State::Outside;
    }
    if shift == 1 {
        return utf7_read::State::Opening;
    }
    utf7_read::State::Run(pending, value)
}

impl From<HostUtf7Cursor> for Cursor<utf7_read::State> {
    ghost from_gives = { λ c r. r ≡ utf7_in c };

    fn from(c: HostUtf7Cursor) -> Cursor<utf7_read::State> {
        let state = shift_in(c.shift, c.pending, c.value);
        Cursor {
            at: c.at,
            handed: c.handed,
            state,
        }
    }
}

impl From<Cursor<utf7_read::State>> for HostUtf7Cursor {
    ghost from_gives = { λ c r. r ≡ utf7_out c };

    fn from(c: Cursor<utf7_read::State>) -> HostUtf7Cursor {
        let Cursor { at, handed, state } = c;
        match state {
            utf7_read::State::Outside => HostUtf7Cursor {
                at,
                handed,
                shift: 0,
                pending: 0,
                value: 0,
            },
            utf7_read::State::Opening => HostUtf7Cursor {
                at,
                handed,
                shift: 1,
                pending: 0,
                value: 0,
            },
            utf7_read::State::Run(pending, value) => HostUtf7Cursor {
                at,
                handed,
                shift: 2,
                pending,
                value,
            },
        }
    }
}

pub fn utf7_start() -> HostUtf7Cursor
    ensures { result ≡ host_start utf7_host }
{
    utf7_read::start().into()
}

// After the last cell the host's own cursor is given back.
pub fn utf7_step(text: &[u8], cursor: HostUtf7Cursor) -> HostUtf7Step
    ensures { utf7_told result ≡ host_step utf7_host text.now cursor }
{
    let (given, cell, answer, next) = told(utf7_read::step(text, cursor.into()), cursor);
    HostUtf7Step {
        given,
        cell: cell.value,
        begin: cell.begin,
        end: cell.end,
        answer,
        next,
    }
}

// Mailbox names

#[tactic(auto, unfolding(crate::specs::Steps::name_shift_in))]
fn name_shift_in(shift: u32, pending: u32, value: u32) -> mailbox_read::State
    ensures { result ≡ name_shift_in shift pending value }
{
    if shift < 2 {
        return mailbox_read::State::Outside(shift == 1);
    }
    if shift < 4 {
        return mailbox_read::State::Opening(shift == 3);
    }
    mailbox_read::State::Run(pending, value)
}

impl From<HostMailboxCursor> for Cursor<mailbox_read::State> {
    ghost from_gives = { λ c r. r ≡ mailbox_in c };

    fn from(c: HostMailboxCursor) -> Cursor<mailbox_read::State> {
        let state = name_shift_in(c.shift, c.pending, c.value);
        Cursor {
            at: c.at,
            handed: c.handed,
            state,
        }
    }
}

impl From<Cursor<mailbox_read::State>> for HostMailboxCursor {
    ghost from_gives = { λ c r. r ≡ mailbox_out c };

    fn from(c: Cursor<mailbox_read::State>) -> HostMailboxCursor {
        let Cursor { at, handed, state } = c;
        match state {
            mailbox_read::State::Outside(after) => HostMailboxCursor {
                at,
                handed,
                shift: after as u32,
                pending: 0,
                value: 0,
            },
            mailbox_read::State::Opening(after) => HostMailboxCursor {
                at,
                handed,
                shift: 2 + after as u32,
                pending: 0,
                value: 0,
            },
            mailbox_read::State::Run(pending, value) => HostMailboxCursor {
                at,
                handed,
                shift: 4,
                pending,
                value,
            },
        }
    }
}

pub fn mailbox_start() -> HostMailboxCursor
    ensures { result ≡ host_start mailbox_host }
{
    mailbox_read::start().into()
}

pub fn mailbox_step(text: &[u8], cursor: HostMailboxCursor) -> HostMailboxStep
    ensures { mailbox_told result ≡ host_step mailbox_host text.now cursor }
{
    let (given, cell, answer, next) = told(mailbox_read::step(text, cursor.into()), cursor);
    HostMailboxStep {
        given,
        cell: cell.value,
        begin: cell.begin,
        end: cell.end,
        answer,
        next,
    }
}

// JP-2

// A number above 6 is taken for 6.
#[tactic(auto, unfolding(crate::specs::Steps::phase_in))]
fn phase_in(phase: u8, first: u8, second: u8) -> jp2_read::Phase
    ensures { result ≡ phase_in phase first second }
{
    if phase == 0 {
        return jp2_read::Phase::Plain;
    }
    if phase == 1 {
        return jp2_read::Phase::Return;
    }
    if phase == 2 {
        return jp2_read::Phase::First(first);
    }
    if phase == 3 {
        return jp2_read::Phase::Shifted;
    }
    if phase == 4 {
        return jp2_read::Phase::Escape;
    }
    if phase == 5 {
        return jp2_read::Phase::Escape1(first);
    }
    jp2_read::Phase::Escape2(first, second)
}

impl From<HostJp2Cursor> for Cursor<jp2_read::State> {
    ghost from_gives = { λ c r. r ≡ jp2_in c };

    fn from(c: HostJp2Cursor) -> Cursor<jp2_read::State> {
        let phase = phase_in(c.phase, c.first, c.second);
        Cursor {
            at: c.at,
            handed: c.handed,
            state: jp2_read::State {
                g0: c.g0,
                g2: c.g2,
                phase,
            },
        }
    }
}

fn phased(c: Cursor<jp2_read::State>, phase: u8, first: u8, second: u8) -> HostJp2Cursor
    ensures { result ≡ phased_at c phase first second }
{
    HostJp2Cursor {
        at: c.at,
        handed: c.handed,
        g0: c.state.g0,
        g2: c.state.g2,
        phase,
        first,
        second,
    }
}

impl From<Cursor<jp2_read::State>> for HostJp2Cursor {
    ghost from_gives = { λ c r. r ≡ jp2_out c };

    fn from(c: Cursor<jp2_read::State>) -> HostJp2Cursor {
        let state = c.state;
        let phase = state.phase;
        match phase {
            jp2_read::Phase::Plain => phased(c, 0, 0, 0),
            jp2_read::Phase::Return => phased(c, 1, 0, 0),
            jp2_read::Phase::First(a) => phased(c, 2, a, 0),
            jp2_read::Phase::Shifted => phased(c, 3, 0, 0),
            jp2_read::Phase::Escape => phased(c, 4, 0, 0),
            jp2_read::Phase::Escape1(x) => phased(c, 5, x, 0),
            jp2_read::Phase::Escape2(x, y) => phased(c, 6, x, y),
        }
    }
}

pub fn jp2_start() -> HostJp2Cursor
    ensures { result ≡ host_start jp2_host }
{
    jp2_read::start().into()
}

pub fn jp2_step(text: &[u8], cursor: HostJp2Cursor) -> HostJp2Step
    ensures { jp2_told result ≡ host_step jp2_host text.now cursor }
{
    let (given, cell, answer, next) = told(jp2_read::step(text, cursor.into()), cursor);
    HostJp2Step {
        given,
        cell: cell.value,
        begin: cell.begin,
        end: cell.end,
        answer,
        next,
    }
}
