// Squeeze: the oldest standing steps of a page folded into one. No text is undone in place: the cells of the texts
// before are followed through the records to where they stand, in a record or in the present text, a stretch at a time.
#![tactic(auto)]

ghost use Rattle.std.specs.Prelude.{◌≡◌, false, ◌+◌, ◌≤◌, ◌<◌, length, get_or, take, drop, Ok};
ghost use Rattle.std.proofs.Math.Seq.{paste};
ghost use Rattle.answer.specs.Answer.{limit, numbered, in_numbers};
ghost use Rattle.answer.specs.Output.{filled};
ghost use Rattle.records.specs.Walking.{judge_of};
ghost use Rattle.ledger.specs.Words.{words_of};
ghost use Rattle.editor.specs.Marks.{folded_mark};
ghost use Rattle.ledger.specs.Page.{state_of, keeps};
ghost use Rattle.ledger.specs.Calls.{squeeze_of};
ghost use Rattle.splice.specs.Splice.{Filled};
ghost use Rattle.squeeze.specs.Tracing.{head_in, kept_in, passed, entries_in, text_since, Leads, On};
ghost use Rattle.squeeze.specs.Tracing.{cells_in, Follows};
ghost use Rattle.squeeze.specs.Folding.{fold_from, fold_of, Foldable, folded_to, squeezed_page};

use answer::{Answer, Refusal, Refused};
use ledger::{Edited, Page};

// Where the oldest records end, the length of the text there, and how many records they are.
#[derive(Clone, Copy)]
struct Fold {
    at: usize,
    len: usize,
    count: usize,
}

// The answer 19, no gain.
fn no_gain() -> Answer
    ensures { in_numbers result ≡ numbered 19 0 }
{
    Err(Refused(Refusal::NoGain, 0))
}

// The first three words of a record, and the word where it ends.
#[derive(Clone, Copy)]
struct Head {
    place: usize,
    removed: usize,
    added: usize,
    end: usize,
}

// Where a walk along cells stands: at a record, with a cell of the text before it, and how many from there on go along.
#[derive(Clone, Copy)]
struct Trail {
    at: usize,
    cell: usize,
    count: usize,
}

// Cells one after another: in the history, among those that a record removed, or in the present text.
#[derive(Clone, Copy)]
struct Stretch {
    kept: bool,
    at: usize,
    count: usize,
}

fn head_at(history: &[u32], at: usize) -> Head
    requires { at + (3 + get_or history.now (at + 1) 0 + get_or history.now (at + 2) 0) ≤ length history.now }
    ensures { result ≡ head_in history.now at }
{
    let place = records::wide(history[at]);
    let removed = records::wide(history[at + 1]);
    let added = records::wide(history[at + 2]);
    Head {
        place,
        removed,
        added,
        end: at + (3 + removed + added),
    }
}

// The first k records of those that stand, or all of them.
fn oldest(history: &[u32], text: &[u32], done: usize, opening: usize, k: usize) -> Fold
    requires { Leads 0 done history.now text.now
        × (opening ≡ length (text_since 0 done history.now text.now)) }
    ensures { result ≡ fold_from 0 opening 0 (take k (entries_in 0 done history.now)) }
{
    let mut at = 0;
    let mut len = opening;
    let mut count = 0;
    while count < k {
        if at == done {
            return Fold { at, len, count };
        }
        let head = head_at(history, at);
        len = len - head.removed + head.added;
        at = head.end;
        count += 1;
    }
    Fold { at, len, count }
}

// Whether a record removed a cell of the text before it.
fn is_kept(head: Head, cell: usize) -> bool
    ensures { result ≡ kept_in head cell }
{
    head.place <= cell && cell - head.place < head.removed
}

// Past a record that did not remove the cell: as many as go the same way, before its place or behind what it removed.
#[tactic(auto, unfolding(answer::specs::Answer::limit))]
fn past(head: Head, from: Trail) -> Trail
    requires { (kept_in head from.cell ≡ false) × (from.cell + head.added ≤ limit + head.removed) }
    ensures { result ≡ passed head from.cell from.count }
{
    if from.cell < head.place {
        return Trail {
            at: head.end,
            cell: from.cell,
            count: from.count.min(head.place - from.cell),
        };
    }
    Trail {
        at: head.end,
        cell: from.cell - head.removed + head.added,
        count: from.count,
    }
}

// Past the records of one shape that come next, up to one that removed the cell. Steps of one kind come in runs, and
// where the next record begins is known before this one is read.
fn past_alike(
    history: &[u32],
    to: usize,
    text: &[u32],
    from: Trail,
    removed: usize,
    added: usize,
) -> Trail
    requires { Leads from.at to history.now text.now × (0 < from.count) × (3 + removed + added ≤ to)
        × (from.cell + from.count ≤ length (text_since from.at to history.now text.now)) }
    ensures { (from.at ≤ result.at) × (result.at ≤ to)
        × On from.at to history.now text.now from.cell from.count
        result.at result.cell result.count }
{
    let size = 3 + removed + added;
    let mut at = from.at;
    let mut cell = from.cell;
    let mut count = from.count;
    while size <= to - at {
        if records::wide(history[at + 1]) != removed {
            return Trail { at, cell, count };
        }
        if records::wide(history[at + 2]) != added {
            return Trail { at, cell, count };
        }
        let head = Head {
            place: records::wide(history[at]),
            removed,
            added,
            end: at + size,
        };
        if is_kept(head, cell) {
            return Trail { at, cell, count };
        }
        let next = past(head, Trail { at, cell, count });
        at = next.at;
        cell = next.cell;
        count = next.count;
    }
    Trail { at, cell, count }
}

// From a cell of the text before the records on, as many as go the same way: to what a record removed, or through all.
fn follow(
    history: &[u32],
    from: usize,
    to: usize,
    text: &[u32],
    start: usize,
    most: usize,
) -> Stretch
    requires { Leads from to history.now text.now × (0 < most)
        × (start + most ≤ length (text_since from to history.now text.now)) }
    ensures { Follows result history.now text.now
        (text_since from to history.now text.now) start most }
{
    let mut at = from;
    let mut cell = start;
    let mut count = most;
    while at < to {
        let head = head_at(history, at);
        if is_kept(head, cell) {
            let behind = cell - head.place;
            return Stretch {
                kept: true,
                at: at + 3 + behind,
                count: count.min(head.removed - behind),
            };
        }
        let next = past(head, Trail { at, cell, count });
        let run = past_alike(history, to, text, next, head.removed, head.added);
        at = run.at;
        cell = run.cell;
        count = run.count;
    }
    Stretch {
        kept: false,
        at: cell,
        count,
    }
}

// Puts a stretch at a place, over what stands there, and gives the place after it.
fn put(work: &mut [u32], at: usize, s: Stretch, history: &[u32], text: &[u32]) -> usize
    requires { (at + s.count ≤ length work.old)
        × (s.at + s.count ≤ length (cells_in s.kept history.now text.now)) }
    ensures { (result ≡ at + s.count) × (work.new
        ≡ paste work.old at
        (drop s.at (cells_in s.kept history.now text.now)) s.count) }
{
    let cells = if s.kept { history } else { text };
    let end = s.at + s.count;
    splice::splice_in(&mut *work, at, at, 0, &cells[s.at..end])
}

// Puts the text before the records at a place, over what stands there.
fn trace(
    work: &mut [u32],
    start: usize,
    size: usize,
    history: &[u32],
    from: usize,
    to: usize,
    text: &[u32],
)
    requires { Leads from to history.now text.now × (size ≡ length (text_since from to history.now text.now))
        × (start + size ≤ length work.old) }
    ensures { work.new
        ≡ paste work.old start (text_since from to history.now text.now) size }
{
    let end = start + size;
    let mut at = start;
    while at < end {
        let s = follow(history, from, to, text, at - start, end - at);
        at = put(&mut *work, at, s, history, text);
    }
}

// The record of the fold at the front of the work buffer: its first three words, the opening text, the text after it.
fn write_record(
    work: &mut [u32],
    history: &[u32],
    text: &[u32],
    opening: usize,
    fold: Fold,
    done: usize,
)
    requires { Foldable opening fold done history.now text.now × (3 + opening + fold.len ≤ length work.old) }
    ensures { work.new
        ≡ filled (words_of (fold_of fold.at done history.now text.now)) work.old }
{
    let at = fold.at;
    let len = fold.len;
    let head = [0, opening as u32, len as u32];
    let first = splice::splice_in(&mut *work, 0, 0, 0, &head);
    trace(&mut *work, first, opening, history, 0, done, text);
    let second = first + opening;
    trace(&mut *work, second, len, history, at, done, text);
}

// The mark, where so many words are folded into so many.
fn mark_left(mark: Option<usize>, old: usize, new: usize) -> Option<usize>
    requires { new ≤ old }
    ensures { result ≡ folded_mark old new mark }
{
    match mark {
        Some(0) => Some(0),
        Some(n) if old <= n => Some(n - old + new),
        _ => None,
    }
}

// What is given back where so many words are folded into so many.
fn shrunk(page: Page, old: usize, new: usize) -> Edited
    requires { (new ≤ old) × (old ≤ page.done) × (page.done ≤ page.used) }
    ensures { result ≡ squeezed_page page old new }
{
    let used = page.used - old + new;
    Edited {
        answer: Ok(used),
        page: Page {
            used,
            done: page.done - old + new,
            saved: mark_left(page.saved, old, new),
            ..page
        },
    }
}

fn refused(page: Page, answer: Answer) -> Edited
    ensures { result ≡ record { answer = answer; page = page } }
{
    Edited { answer, page }
}

// 19, then 9; else the record is made, and put for the oldest ones.
fn squeeze_to(page: Page, fold: Fold, text: &[u32], history: &mut [u32], work: &mut [u32]) -> Edited
    requires { Foldable page.opening fold page.done history.old (take page.length text.now)
        × (page.length ≤ length text.now) × (fold.at ≤ page.done) × (page.done ≤ page.used)
        × Filled page.used history.old }
    ensures { keeps result text.now history.new work.new
        ≡ folded_to (state_of page text.now history.old) work.old fold.at
        (fold_of fold.at page.done history.old (take page.length text.now)) }
{
    let size = 3 + page.opening + fold.len;
    let old = fold.at;
    if old <= size {
        return refused(page, no_gain());
    }
    if work.len() < size {
        return refused(page, Err(Refused(Refusal::NoRoom, size)));
    }
    let length = page.length;
    write_record(
        &mut *work,
        &*history,
        &text[..length],
        page.opening,
        fold,
        page.done,
    );
    splice::splice_in(&mut *history, page.used, 0, old, &work[..size]);
    shrunk(page, old, size)
}

// On a sound page: 11.
fn squeeze_sound(
    page: Page,
    k: usize,
    text: &[u32],
    history: &mut [u32],
    work: &mut [u32],
    last: usize,
) -> Edited
    requires { judge_of (state_of page text.now history.old) ≡ Ok last }
    ensures { keeps result text.now history.new work.new
        ≡ squeeze_of (state_of page text.now history.old) k work.old }
{
    if k < 2 {
        return refused(page, Err(Refused(Refusal::BeyondLength, 0)));
    }
    let length = page.length;
    let fold = oldest(&*history, &text[..length], page.done, page.opening, k);
    if fold.count < k {
        return refused(page, Err(Refused(Refusal::BeyondLength, 0)));
    }
    squeeze_to(page, fold, text, &mut *history, &mut *work)
}

// Folds the oldest k standing steps into one: 16, 14, 11, 19, 9.
pub fn squeeze(page: Page, k: usize, text: &[u32], history: &mut [u32], work: &mut [u32]) -> Edited
    ensures { keeps result text.now history.new work.new
        ≡ squeeze_of (state_of page text.now history.old) k work.old }
{
    match records::judge(page, text, &*history) {
        Err(why) => refused(page, Err(why)),
        Ok(last) => squeeze_sound(page, k, text, &mut *history, &mut *work, last),
    }
}
