// Whether a page is sound: what every call on a page asks first.
#![tactic(auto)]

ghost use Rattle.std.specs.Prelude.{◌≡◌, ◌+◌, ◌-◌, ◌≤◌, ◌<◌, ◌^◌, length, drop};
ghost use Rattle.std.proofs.Math.Seq.{slice};
ghost use Rattle.answer.specs.Answer.{limit};
ghost use Rattle.ledger.specs.Words.{zeros};
ghost use Rattle.ledger.specs.Page.{state_of, records};
ghost use Rattle.ledger.specs.Parts.{mark_within, cut_in, bounded};
ghost use Rattle.records.specs.Walking.{walk_in, walk_cut, walk_from, last_of, judge_of};

use answer::{Refusal, Refused};
use ledger::Page;

// Where a walk over records stands: at a word, with a length, and where the last record passed begins.
#[derive(Clone, Copy)]
struct Spot {
    at: usize,
    len: usize,
    last: usize,
}

// A word as a number.
pub fn wide(x: u32) -> usize
    ensures { (result ≡ x) × (result < 2 ^ 32) }
{
    x as usize
}

// The elements of a block, joined: 0 only where each of them is. The loop has a fixed count, so the machine takes it several elements at a time.
fn block_at(s: &[u32], at: usize) -> u32
    requires { at + 16 ≤ length s.now }
    ensures { result ≡ 0 → zeros (drop at s.now) ≡ zeros (drop (at + 16) s.now) }
{
    let mut all = 0u32;
    for k in 0..16 {
        all = all | s[at + k];
    }
    all
}

// Past blocks that are all 0. An index loop, as the loops below: each call on a page judges it whole, so they are hot.
fn past_blocks(s: &[u32], at: usize) -> usize
    requires { at ≤ length s.now }
    ensures { zeros (drop result s.now) ≡ zeros (drop at s.now) }
{
    let mut i = at;
    while 16 <= s.len() - i {
        if block_at(s, i) != 0 {
            return i;
        }
        i += 16;
    }
    i
}

// Whether every element from a place on is 0; past the end there is none.
pub fn zero_from(s: &[u32], at: usize) -> bool
    ensures { result ≡ zeros (drop at s.now) }
{
    if s.len() < at {
        return true;
    }
    let mut i = past_blocks(s, at);
    while i < s.len() {
        if s[i] != 0 {
            return false;
        }
        i += 1;
    }
    true
}

// Past the records of one shape that come next, as far as they fit. Steps of one kind come in runs, and where the next record begins is known before this one is read.
fn past_alike(
    history: &[u32],
    to: usize,
    from: Spot,
    removed: usize,
    added: usize,
    room: usize,
) -> Spot
    requires { (from.at ≤ to) × (to ≤ length history.now) × (length history.now ≤ limit) × (from.len ≤ room) × (room ≤ limit) × (3 + removed + added ≤ to) }
    ensures { (from.at ≤ result.at) × (result.at ≤ to) × (result.len ≤ room)
        × (walk_from history.now to room from ≡ walk_from history.now to room result) }
{
    let size = 3 + removed + added;
    let mut at = from.at;
    let mut len = from.len;
    let mut last = from.last;
    while size <= to - at {
        let place = wide(history[at]);
        if wide(history[at + 1]) != removed {
            return Spot { at, len, last };
        }
        if wide(history[at + 2]) != added {
            return Spot { at, len, last };
        }
        let end = place + removed;
        if len < end {
            return Spot { at, len, last };
        }
        let after = len - removed + added;
        if room < after {
            return Spot { at, len, last };
        }
        last = at;
        at += size;
        len = after;
    }
    Spot { at, len, last }
}

// The records from one word to another, from a length on, where the record before begins at a word: the length that they
// lead to, and the word where the last of them begins. None where they do not fit; no length may exceed the room.
fn walk_records(
    history: &[u32],
    from: usize,
    to: usize,
    start: usize,
    before: usize,
    room: usize,
) -> Option<(usize, usize)>
    requires { (from ≤ to) × (to ≤ length history.now) × (length history.now ≤ limit) × (start ≤ room) × (room ≤ limit) }
    ensures { result ≡ walk_in room from start before (slice from to history.now) }
{
    let mut at = from;
    let mut len = start;
    let mut last = before;
    while at < to {
        if to - at < 3 {
            return None;
        }
        let place = wide(history[at]);
        let removed = wide(history[at + 1]);
        let added = wide(history[at + 2]);
        let size = 3 + removed + added;
        if to - at < size {
            return None;
        }
        if len < place + removed {
            return None;
        }
        let after = len - removed + added;
        if room < after {
            return None;
        }
        let end = at + size;
        let next = Spot {
            at: end,
            len: after,
            last: at,
        };
        let run = past_alike(history, to, next, removed, added, room);
        at = run.at;
        len = run.len;
        last = run.last;
    }
    Some((len, last))
}

// The word at which the mark cuts those from one to another: its own if it is among them, else the first.
pub fn cut_in(mark: Option<usize>, from: usize, to: usize) -> usize
    ensures { result ≡ cut_in mark from to }
{
    match mark {
        Some(n) if from <= n && n <= to => n,
        _ => from,
    }
}

// The records from one word to another, where a mark among those words is the end of one of them: the walk is cut there.
fn walk_marked(
    history: &[u32],
    from: usize,
    to: usize,
    start: usize,
    room: usize,
    mark: Option<usize>,
) -> Option<(usize, usize)>
    requires { (from ≤ to) × (to ≤ length history.now) × (length history.now ≤ limit) × (start ≤ room) × (room ≤ limit) }
    ensures { result ≡ walk_cut room from start from (cut_in mark from to - from) (slice from to history.now) }
{
    let cut = cut_in(mark, from, to);
    let (len, last) = walk_records(history, from, cut, start, from, room)?;
    walk_records(history, cut, to, len, last, room)
}

// Whether the mark is of the words used.
pub fn mark_within(mark: Option<usize>, used: usize) -> bool
    ensures { result ≡ mark_within used mark }
{
    match mark {
        Some(n) => n <= used,
        None => true,
    }
}

// Whether the lengths fit, everything past the ends is 0, and the words done and the mark are of those used.
#[tactic(auto, unfolding(ledger::specs::Page::framed))]
fn within(page: Page, text: &[u32], history: &[u32]) -> bool
    ensures { result ≡ bounded (state_of page text.now history.now) }
{
    page.opening <= text.len()
        && page.length <= text.len()
        && page.used <= history.len()
        && zero_from(text, page.length)
        && zero_from(history, page.used)
        && page.done <= page.used
        && mark_within(page.saved, page.used)
}

// Where the last standing record begins. The records that stand lead to the page's length, and those undone follow from
// there; the mark is among the ends of both. None where the page is not sound.
fn survey(page: Page, text: &[u32], history: &[u32]) -> Option<usize>
    requires { (length text.now ≤ limit) × (length history.now ≤ limit) }
    ensures { result ≡ last_of page.done (records (state_of page text.now history.now)) }
{
    if !within(page, text, history) {
        return None;
    }
    let room = text.len();
    let (reached, last) = walk_marked(history, 0, page.done, page.opening, room, page.saved)?;
    if reached != page.length {
        return None;
    }
    walk_marked(history, page.done, page.used, page.length, room, page.saved)?;
    Some(last)
}

// What is found of a page and its buffers: 16, then 14, or else the word where the last standing record begins.
pub fn judge(page: Page, text: &[u32], history: &[u32]) -> Result<usize, Refused>
    ensures { result ≡ judge_of (state_of page text.now history.now) }
{
    if answer::over_limit(text.len()) || answer::over_limit(history.len()) {
        return answer::too_long();
    }
    survey(page, text, history).ok_or(Refused(Refusal::Unsound, 0))
}
