// The five calls on a page: open, replace, undo, redo, save; and the question whether it is unchanged. Each is judged whole before anything is changed.
#![tactic(auto)]

mod output;

ghost use Rattle.std.specs.Prelude.{◌≡◌, ◌+◌, ◌-◌, ◌≤◌, ◌<◌, ◌^◌, [], ◌++◌, length, take, replicate, Some, Ok};
ghost use Rattle.answer.specs.Answer.{limit, numbered};
ghost use Rattle.answer.specs.Output as output;
ghost use Rattle.records.specs.Walking.{judge_of};
ghost use Rattle.ledger.specs.Words.{words_of, pad};
ghost use Rattle.editor.specs.Marks.{replaced_mark, unchanged_at};
ghost use Rattle.ledger.specs.Page.{state_of, leaves, keeps, replies};
ghost use Rattle.ledger.specs.Calls.{undo_of, redo_of, entry_at, replace_of, open_of, save_of, unchanged_of};
ghost use Rattle.splice.specs.Splice.{spliced, Filled};
ghost use Rattle.page.specs.Steps.{stepped_of, span_of, no_change, change_found};
ghost use Rattle.page.specs.Outcomes.{edited_as, replace_fitting, replace_sound, fresh_page, saved_in, saved_page};

use answer::{Answer, Refusal, Refused};
use codec::Kind;
use ledger::{Asked, Edited, Page};

// Words of the history: those of the step to be moved over, or none.
#[derive(Clone, Copy)]
struct Span {
    from: usize,
    to: usize,
}

// Cells of the history, from a word to another, to be put for `count` cells at a place of the text; and the words done after it.
#[derive(Clone, Copy)]
pub struct Change {
    pub place: usize,
    pub count: usize,
    pub from: usize,
    pub to: usize,
    pub done: usize,
}

// A refusal changes nothing.
fn refused(page: Page, answer: Answer) -> Edited
    ensures { result ≡ record { answer = answer; page = page } }
{
    Edited { answer, page }
}

// Puts cells for `count` cells at a place of the page's text.
fn accept(
    page: Page,
    place: usize,
    count: usize,
    cells: &[u32],
    used: usize,
    done: usize,
    saved: Option<usize>,
    text: &mut [u32],
) -> Edited
    requires { (place + count ≤ page.length) × Filled page.length text.old × (page.length - count + length cells.now ≤ length text.old) }
    ensures { (result ≡ edited_as page (spliced place count cells.now (take page.length text.old)) used done saved)
        × (text.new ≡ pad (length text.old) (spliced place count cells.now (take page.length text.old))) }
{
    let length = splice::splice_in(&mut *text, page.length, place, count, cells);
    Edited {
        answer: Ok(length),
        page: Page {
            length,
            used,
            done,
            saved,
            ..page
        },
    }
}

fn words_over(page: Page, forward: bool, last: usize) -> Span
    ensures { result ≡ span_of forward page last }
{
    if forward {
        Span {
            from: page.done,
            to: page.used,
        }
    } else {
        Span {
            from: last,
            to: page.done,
        }
    }
}

fn no_change() -> Change
    ensures { result ≡ no_change }
{
    Change {
        place: 0,
        count: 0,
        from: 0,
        to: 0,
        done: 0,
    }
}

// The record at a word, forward as it was done, or back; no change where its first three words are not in the history.
pub fn change_at(history: &[u32], at: usize, forward: bool) -> Change
    ensures { result ≡ change_found forward history.now at }
{
    if history.len() < 3 || history.len() - 3 < at {
        return no_change();
    }
    let place = records::wide(history[at]);
    let removed = records::wide(history[at + 1]);
    let added = records::wide(history[at + 2]);
    let first = at + 3;
    let second = first + removed;
    if forward {
        let end = second + added;
        Change {
            place,
            count: removed,
            from: second,
            to: end,
            done: end,
        }
    } else {
        Change {
            place,
            count: added,
            from: first,
            to: second,
            done: at,
        }
    }
}

// On a sound page: 13, or the step done again or taken back.
fn move_over(page: Page, forward: bool, last: usize, text: &mut [u32], history: &[u32]) -> Edited
    requires { judge_of (state_of page text.old history.now) ≡ Ok last }
    ensures { leaves result text.new history.now
        ≡ stepped_of forward (state_of page text.old history.now) }
{
    let span = words_over(page, forward, last);
    let at = span.from;
    if at == span.to {
        return refused(page, Err(Refused(Refusal::NothingLeft, 0)));
    }
    let change = change_at(history, at, forward);
    accept(
        page,
        change.place,
        change.count,
        &history[change.from..change.to],
        page.used,
        change.done,
        page.saved,
        &mut *text,
    )
}

fn step_over(page: Page, forward: bool, text: &mut [u32], history: &[u32]) -> Edited
    ensures { leaves result text.new history.now
        ≡ stepped_of forward (state_of page text.old history.now) }
{
    match records::judge(page, &*text, history) {
        Err(why) => refused(page, Err(why)),
        Ok(last) => move_over(page, forward, last, &mut *text, history),
    }
}

// Takes the last standing step back.
pub fn undo(page: Page, text: &mut [u32], history: &[u32]) -> Edited
    ensures { leaves result text.new history.now
        ≡ undo_of (state_of page text.old history.now) }
{
    step_over(page, false, &mut *text, history)
}

// Does the next undone step again.
pub fn redo(page: Page, text: &mut [u32], history: &[u32]) -> Edited
    ensures { leaves result text.new history.now
        ≡ redo_of (state_of page text.old history.now) }
{
    step_over(page, true, &mut *text, history)
}

// Puts a step's record in place of all words used from a word on: its first three words, and then the cells.
fn put_record(
    history: &mut [u32],
    used: usize,
    at: usize,
    place: usize,
    removed: &[u32],
    added: &[u32],
)
    requires { Filled used history.old × (at ≤ used) × (at + (3 + length removed.now + length added.now) ≤ length history.old)
        × (place < 2 ^ 32) × (length removed.now < 2 ^ 32) × (length added.now < 2 ^ 32) }
    ensures { history.new ≡ pad (length history.old)
        (take at history.old ++ words_of (record { place = place; removed = removed.now; added = added.now })) }
{
    let head = [place as u32, removed.len() as u32, added.len() as u32];
    let first = splice::splice_in(&mut *history, used, at, used - at, &head);
    let second = splice::splice_in(&mut *history, first, first, 0, removed);
    splice::splice_in(&mut *history, second, second, 0, added);
}

// The mark after a replace made while so many words were done.
pub fn mark_left(mark: Option<usize>, done: usize) -> Option<usize>
    ensures { result ≡ replaced_mark done mark }
{
    mark.filter(|n| *n <= done)
}

// 9, then 12; else the step is recorded and done.
fn replace_fitting(
    page: Page,
    place: usize,
    count: usize,
    cells: &[u32],
    text: &mut [u32],
    history: &mut [u32],
) -> Edited
    requires { (place + count ≤ page.length) × Filled page.length text.old × (page.done ≤ page.used) × Filled page.used history.old
        × (length cells.now ≤ limit) × (length text.old ≤ limit) × (length history.old ≤ limit) }
    ensures { leaves result text.new history.new
        ≡ replace_fitting (state_of page text.old history.old)
        (entry_at (take page.length text.old) place count cells.now) }
{
    let length = page.length - count + cells.len();
    if text.len() < length {
        return refused(page, Err(Refused(Refusal::NoRoom, length)));
    }
    let done = page.done;
    let used = done + (3 + count + cells.len());
    if history.len() < used {
        return refused(page, Err(Refused(Refusal::HistoryFull, used)));
    }
    let end = place + count;
    put_record(
        &mut *history,
        page.used,
        done,
        place,
        &text[place..end],
        cells,
    );
    let saved = mark_left(page.saved, done);
    accept(page, place, count, cells, used, used, saved, &mut *text)
}

// On a sound page: 11, then 10.
fn replace_sound(
    page: Page,
    place: usize,
    count: usize,
    cells: &[u32],
    text: &mut [u32],
    history: &mut [u32],
) -> Edited
    requires { Filled page.length text.old × (page.done ≤ page.used) × Filled page.used history.old
        × (length cells.now ≤ limit) × (length text.old ≤ limit) × (length history.old ≤ limit) }
    ensures { leaves result text.new history.new
        ≡ replace_sound (state_of page text.old history.old) place count cells.now }
{
    let length = page.length;
    if length < count || length - count < place {
        return refused(page, Err(Refused(Refusal::BeyondLength, length)));
    }
    let first = codec::first_unwritable(page.kind, cells);
    if first < cells.len() {
        return refused(page, Err(Refused(Refusal::Unwritable, first)));
    }
    replace_fitting(page, place, count, cells, &mut *text, &mut *history)
}

// Puts cells for `count` cells at a place, and records the step.
pub fn replace(
    page: Page,
    place: usize,
    count: usize,
    cells: &[u32],
    text: &mut [u32],
    history: &mut [u32],
) -> Edited
    ensures { leaves result text.new history.new
        ≡ replace_of (state_of page text.old history.old) place count cells.now }
{
    if answer::over_limit(cells.len()) {
        return refused(page, answer::too_long());
    }
    match records::judge(page, &*text, &*history) {
        Err(why) => refused(page, Err(why)),
        Ok(_) => replace_sound(page, place, count, cells, &mut *text, &mut *history),
    }
}

// A page on which nothing was done.
fn fresh(kind: Kind, size: usize, saved: Option<usize>) -> Page
    ensures { result ≡ fresh_page kind size saved }
{
    Page {
        kind,
        opening: size,
        length: size,
        used: 0,
        done: 0,
        saved,
    }
}

// Clears what the reading did not fill.
fn opened(kind: Kind, count: usize, text: &mut [u32], history: &mut [u32]) -> Edited
    ensures { leaves result text.new history.new
        ≡ record {
          verdict = numbered 0 count;
          state = state_of (fresh_page kind count (Some 0))
              (pad (length text.old) (take count text.old)) (replicate (length history.old) 0);
          output = [];
        } }
{
    splice::clear_from(&mut *text, count);
    splice::clear_from(&mut *history, 0);
    Edited {
        answer: Ok(count),
        page: fresh(kind, count, Some(0)),
    }
}

// Reads the arrived bytes into the text and clears the history.
pub fn open(kind: Kind, arrived: &[u8], text: &mut [u32], history: &mut [u32]) -> Edited
    ensures { leaves result text.new history.new
        ≡ open_of kind arrived.now text.old history.old }
{
    let none = fresh(kind, 0, None);
    if answer::over_limit(arrived.len())
        || answer::over_limit(text.len())
        || answer::over_limit(history.len())
    {
        return refused(none, answer::too_long());
    }
    let answer = codec::read(kind.format(), arrived, &mut *text);
    match answer {
        Ok(count) => opened(kind, count, &mut *text, &mut *history),
        Err(_) => refused(none, answer),
    }
}

// The arrived bytes where no step stands, if they read as the text; else the text written.
fn save_text(page: Page, cells: &[u32], arrived: &[u8], out: &mut [u8]) -> Answer
    ensures { output.leaves result out.new ≡ saved_in page cells.now arrived.now out.old }
{
    if page.done != 0 {
        return codec::write(page.kind, cells, &mut *out);
    }
    if !codec::reads_as(page.kind.format(), arrived, cells) {
        return Err(Refused(Refusal::NotTheText, 0));
    }
    output::give(arrived, &mut *out)
}

// What save gives back: "an accepted save sets it to the words done".
fn set_mark(page: Page, answer: Answer) -> Edited
    ensures { result ≡ record { answer = answer; page = saved_page page answer } }
{
    match answer {
        Ok(_) => Edited {
            answer,
            page: Page {
                saved: Some(page.done),
                ..page
            },
        },
        Err(_) => refused(page, answer),
    }
}

// On a sound page: the bytes, and the mark.
pub fn save_sound(page: Page, cells: &[u32], arrived: &[u8], out: &mut [u8]) -> Edited
    ensures { (result.page ≡ saved_page page result.answer)
        × (output.leaves result.answer out.new ≡ saved_in page cells.now arrived.now out.old) }
{
    let answer = save_text(page, cells, arrived, &mut *out);
    set_mark(page, answer)
}

// Gives the arrived bytes where no step stands, else the text written in the page's kind; and the page, with its mark.
pub fn save(page: Page, text: &[u32], history: &[u32], arrived: &[u8], out: &mut [u8]) -> Edited
    ensures { keeps result text.now history.now out.new
        ≡ save_of (state_of page text.now history.now) arrived.now out.old }
{
    if answer::over_limit(arrived.len()) {
        return refused(page, answer::too_long());
    }
    match records::judge(page, text, history) {
        Err(why) => refused(page, Err(why)),
        Ok(_) => save_sound(page, &text[..page.length], arrived, &mut *out),
    }
}

// Whether the mark is at the words done.
pub fn told(page: Page) -> Asked
    ensures { result ≡ record { answer = Ok 0; unchanged = unchanged_at page.done page.saved } }
{
    Asked {
        answer: Ok(0),
        unchanged: page.saved == Some(page.done),
    }
}

// Whether the page is as it was saved last, or opened: 16, 14, else place 0.
pub fn unchanged(page: Page, text: &[u32], history: &[u32]) -> Asked
    ensures { replies result ≡ unchanged_of (state_of page text.now history.now) }
{
    match records::judge(page, text, history) {
        Err(why) => Asked {
            answer: Err(why),
            unchanged: false,
        },
        Ok(_) => told(page),
    }
}
