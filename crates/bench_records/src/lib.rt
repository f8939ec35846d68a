// Whether two benches are sound: what every call asks first. One pass for each bench over all records.
#![tactic(auto)]

ghost use Rattle.std.specs.Prelude.{◌≡◌, ◌+◌, ◌≤◌, ◌<◌, ◌^◌, length, take};
ghost use Rattle.answer.specs.Answer.{limit};
ghost use Rattle.bench_records.specs.Passing.{onward, begun};
ghost use Rattle.benches.specs.Benches.{state_of, records};
ghost use Rattle.bench_records.specs.Judging.{text_fits, leads_as, fitted_of, judged_at, judge_of};
ghost use Rattle.bench_records.specs.Turning.{head_at, size_at, Bounded, turned, pass_in, pass_from};

use answer::{Refusal, Refused};
use benches::{Bench, Benches};

// The first four words of a record.
#[derive(Clone, Copy)]
struct Head {
    bench: usize,
    place: usize,
    removed: usize,
    added: usize,
}

// Where a pass over a bench's own records stands: how many were passed, and the length that they lead to; the length
// that those that stand lead to, and the word where the last of them begins; the word where the first undone one
// begins, and how many words the undone ones are.
#[derive(Clone, Copy)]
pub struct Pass {
    pub seen: usize,
    pub len: usize,
    pub stood: usize,
    pub last: usize,
    pub next: usize,
    pub spare: usize,
}

// A pass at the word where its next record begins.
#[derive(Clone, Copy)]
struct Spot {
    at: usize,
    pass: Pass,
}

fn head_at(history: &[u32], at: usize) -> Head
    requires { at + 4 ≤ length history.now }
    ensures { (result ≡ head_at history.now at)
        × (result.place < 2 ^ 32) × (result.removed < 2 ^ 32) × (result.added < 2 ^ 32) }
{
    let bench = records::wide(history[at]);
    let place = records::wide(history[at + 1]);
    let removed = records::wide(history[at + 2]);
    let added = records::wide(history[at + 3]);
    Head {
        bench,
        place,
        removed,
        added,
    }
}

// An own record more, of so many words, which begins at a word and leads to a length.
#[tactic(auto, unfolding(answer::specs::Answer::limit))]
fn pass_own(standing: usize, at: usize, p: Pass, after: usize, size: usize) -> Pass
    requires { (p.seen ≤ limit) × (p.spare + size ≤ limit) }
    ensures { result ≡ onward standing at p after size }
{
    let seen = p.seen + 1;
    if p.seen < standing {
        return Pass {
            seen,
            len: after,
            stood: after,
            last: at,
            ..p
        };
    }
    let next = if p.seen == standing { at } else { p.next };
    Pass {
        seen,
        len: after,
        next,
        spare: p.spare + size,
        ..p
    }
}

// One record more: the other bench's changes nothing.
#[tactic(auto, unfolding(answer::specs::Answer::limit))]
fn pass_one(room: usize, standing: usize, mine: usize, at: usize, p: Pass, h: Head) -> Option<Pass>
    requires { Bounded room at p × (room ≤ limit) × (at + size_at h ≤ limit) × (h.place < 2 ^ 32) }
    ensures { result ≡ turned room standing mine at p h }
{
    if h.bench != mine {
        return if h.bench <= 1 { Some(p) } else { None };
    }
    let len = p.len;
    let removed = h.removed;
    if len < h.place + removed {
        return None;
    }
    let after = len - removed + h.added;
    if room < after {
        return None;
    }
    let size = 4 + removed + h.added;
    Some(pass_own(standing, at, p, after, size))
}

// Past the records that come next and have a record's counts, as far as they fit. Steps of one kind come in runs, and
// where the next record begins is known before this one is read.
fn past_alike(
    history: &[u32],
    used: usize,
    mine: usize,
    standing: usize,
    room: usize,
    from: Spot,
    like: Head,
) -> Spot
    requires { (from.at ≤ used) × (used ≤ length history.now) × (length history.now ≤ limit) × (mine ≤ 1)
        × Bounded room from.at from.pass × (room ≤ limit) × (size_at like ≤ used) }
    ensures { (from.at ≤ result.at) × (result.at ≤ used) × Bounded room result.at result.pass
        × (pass_from room standing mine used history.now from
        ≡ pass_from room standing mine used history.now result) }
{
    let size = 4 + like.removed + like.added;
    let mut at = from.at;
    let mut pass = from.pass;
    while size <= used - at {
        let h = head_at(history, at);
        if h.removed != like.removed {
            return Spot { at, pass };
        }
        if h.added != like.added {
            return Spot { at, pass };
        }
        let Some(next) = pass_one(room, standing, mine, at, pass, h) else {
            return Spot { at, pass };
        };
        pass = next;
        at += size;
    }
    Spot { at, pass }
}

// A bench's own records among all words used, from its opening length on; no length may exceed the room.
#[tactic(auto, unfolding(answer::specs::Answer::limit))]
fn pass_over(
    history: &[u32],
    used: usize,
    mine: usize,
    standing: usize,
    opening: usize,
    room: usize,
) -> Option<Pass>
    requires { (used ≤ length history.now) × (length history.now ≤ limit) × (mine ≤ 1)
        × (opening ≤ room) × (room ≤ limit) }
    ensures { result ≡ pass_in room standing mine 0 (begun opening used) (take used history.now) }
{
    let mut at = 0;
    let mut p = Pass {
        seen: 0,
        len: opening,
        stood: opening,
        last: 0,
        next: used,
        spare: 0,
    };
    while at < used {
        if used - at < 4 {
            return None;
        }
        let h = head_at(history, at);
        let size = 4 + h.removed + h.added;
        if used - at < size {
            return None;
        }
        let pass = pass_one(room, standing, mine, at, p, h)?;
        let end = at + size;
        let next = Spot { at: end, pass };
        let run = past_alike(history, used, mine, standing, room, next, h);
        at = run.at;
        p = run.pass;
    }
    Some(p)
}

// Whether a bench's lengths fit its text buffer, and everything past its text is 0.
fn text_fits(b: Bench, text: &[u32]) -> bool
    ensures { result ≡ text_fits b text.now }
{
    b.opening <= text.len() && b.length <= text.len() && records::zero_from(text, b.length)
}

// Whether as many stand as the bench says, lead to its length, and its mark is at most the number of all.
fn leads_as(b: Bench, p: Pass) -> bool
    ensures { result ≡ leads_as b p }
{
    b.standing <= p.seen && records::mark_within(b.saved, p.seen) && p.stood == b.length
}

// A bench by its own records and text: where its pass stands at the end, if it is sound.
fn bench_fitted(b: Bench, text: &[u32], history: &[u32], used: usize, mine: usize) -> Option<Pass>
    requires { (length text.now ≤ limit) × (used ≤ length history.now) × (length history.now ≤ limit)
        × (mine ≤ 1) }
    ensures { result ≡ fitted_of b text.now used mine (take used history.now) }
{
    if !text_fits(b, text) {
        return None;
    }
    let p = pass_over(history, used, mine, b.standing, b.opening, text.len())?;
    if !leads_as(b, p) {
        return None;
    }
    Some(p)
}

// On buffers within the limit: whether both benches are sound, and where the pass of one of them stands. 16 and 20
// come before it.
fn survey(b: Benches, text0: &[u32], text1: &[u32], history: &[u32], mine: usize) -> Option<Pass>
    requires { (length text0.now ≤ limit) × (length text1.now ≤ limit) × (length history.now ≤ limit)
        × (mine ≤ 1) }
    ensures { result ≡ judged_at (state_of b text0.now text1.now history.now) mine
        (records (state_of b text0.now text1.now history.now)) }
{
    let used = b.used;
    if history.len() < used {
        return None;
    }
    if !records::zero_from(history, used) {
        return None;
    }
    let first = bench_fitted(b.bench0, text0, history, used, 0)?;
    let second = bench_fitted(b.bench1, text1, history, used, 1)?;
    if mine == 0 {
        return Some(first);
    }
    Some(second)
}

// What is found of both benches and their buffers, for the calls of the bench of a number: 16, 20, 14, or else where
// that bench's pass stands.
#[tactic(auto, using(crate::proofs::Judging::long_first, crate::proofs::Judging::long_second, crate::proofs::Judging::long_history, crate::proofs::Judging::nobody), unfolding(answer::specs::Answer::limit))]
pub fn judge(
    b: Benches,
    bench: usize,
    text0: &[u32],
    text1: &[u32],
    history: &[u32],
) -> Result<Pass, Refused>
    ensures { result ≡ judge_of (state_of b text0.now text1.now history.now) bench }
{
    if answer::over_limit(text0.len()) {
        return Err(Refused(Refusal::OverLimit, answer::LIMIT));
    }
    if answer::over_limit(text1.len()) {
        return Err(Refused(Refusal::OverLimit, answer::LIMIT));
    }
    if answer::over_limit(history.len()) {
        return Err(Refused(Refusal::OverLimit, answer::LIMIT));
    }
    if 1 < bench {
        return Err(Refused(Refusal::NoSuchBench, 0));
    }
    survey(b, text0, text1, history, bench).ok_or(Refused(Refusal::Unsound, 0))
}
