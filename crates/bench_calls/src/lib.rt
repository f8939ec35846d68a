// The calls of two benches that share one history. Each is judged whole before anything is changed.
#![tactic(auto)]

mod gap;

ghost use Rattle.std.specs.Prelude.{◌≡◌, true, false, cond, [], ◌+◌, ◌-◌, ◌≤◌, ◌<◌, length, take, eqb, Ok};
ghost use Rattle.answer.specs.Answer.{limit};
ghost use Rattle.answer.specs.Output as output;
ghost use Rattle.editor.specs.Records.{entry_at};
ghost use Rattle.editor.specs.Editor.{over};
ghost use Rattle.ledger.specs.Words.{pad};
ghost use Rattle.ledger.specs.Page.{replies};
ghost use Rattle.benches.specs.Benches.{state_of, leaves};
ghost use Rattle.benches.specs.Calls.{replace_of, undo_of, redo_of, save_of, unchanged_of};
ghost use Rattle.bench_records.specs.Judging.{judge_of};
ghost use Rattle.splice.specs.Splice.{spliced, Filled};
ghost use Rattle.page.specs.Outcomes.{saved_in};
ghost use Rattle.bench_calls.specs.Leaving.{leaves_of, edited_as, bench_at, turned_at};
ghost use Rattle.bench_calls.specs.Steps.{Ready, moved_on, Steppable, stepped_on, stepped_of};
ghost use Rattle.bench_calls.specs.Replaces.{Shared, fitting_on, replaced_on};
ghost use Rattle.bench_calls.specs.Saves.{page_of, saved_bench, cells_at};

use answer::{Answer, Refusal, Refused};
use bench_records::Pass;
use benches::{Bench, Benches, Edited};
use ledger::{Asked, Page};

// What a call gives back of the caller's bench, and the words then used.
#[derive(Clone, Copy)]
struct Turned {
    answer: Answer,
    bench: Bench,
    used: usize,
}

// A refusal changes nothing.
fn refused(b: Benches, answer: Answer) -> Edited
    ensures { result ≡ record { answer = answer; benches = b } }
{
    Edited { answer, benches: b }
}

// Nor does one of the caller's bench.
fn stays(b: Bench, used: usize, answer: Answer) -> Turned
    ensures { result ≡ record { answer = answer; bench = b; used = used } }
{
    Turned {
        answer,
        bench: b,
        used,
    }
}

// The caller's bench beside the other one.
fn back(b: Benches, bench: usize, t: Turned) -> Edited
    ensures { result ≡ record {
      answer = t.answer;
      benches = record {
        bench0 = cond (eqb bench 0) t.bench b.bench0;
        bench1 = cond (eqb bench 0) b.bench1 t.bench;
        used = t.used;
      };
    } }
{
    let answer = t.answer;
    let used = t.used;
    let benches = if bench == 0 {
        Benches {
            bench0: t.bench,
            used,
            ..b
        }
    } else {
        Benches {
            bench1: t.bench,
            used,
            ..b
        }
    };
    Edited { answer, benches }
}

// Puts cells for `count` cells at a place of a bench's text.
fn accept(
    b: Bench,
    place: usize,
    count: usize,
    cells: &[u32],
    used: usize,
    standing: usize,
    saved: Option<usize>,
    text: &mut [u32],
) -> Turned
    requires { (place + count ≤ b.length) × Filled b.length text.old
        × (b.length - count + length cells.now ≤ length text.old) }
    ensures { (result ≡ edited_as b (spliced place count cells.now (take b.length text.old))
        used standing saved)
        × (text.new ≡ pad (length text.old)
        (spliced place count cells.now (take b.length text.old))) }
{
    let length = splice::splice_in(&mut *text, b.length, place, count, cells);
    Turned {
        answer: Ok(length),
        bench: Bench {
            length,
            standing,
            saved,
            ..b
        },
        used,
    }
}

// The record that begins at a word, past its first word, forward as it was done, or back.
fn move_at(
    b: Bench,
    used: usize,
    forward: bool,
    at: usize,
    standing: usize,
    text: &mut [u32],
    history: &[u32],
) -> Turned
    requires { Ready forward b at text.old history.now }
    ensures { leaves_of result text.new history.now
        ≡ moved_on forward b used at standing text.old history.now }
{
    let change = page::change_at(history, at, forward);
    accept(
        b,
        change.place,
        change.count,
        &history[change.from..change.to],
        used,
        standing,
        b.saved,
        &mut *text,
    )
}

// On sound benches: 13, or the caller's last standing step taken back.
fn undo_last(b: Bench, used: usize, p: Pass, text: &mut [u32], history: &[u32]) -> Turned
    requires { Steppable false b p text.old history.now }
    ensures { leaves_of result text.new history.now
        ≡ stepped_on false b used p text.old history.now }
{
    if b.standing == 0 {
        return stays(b, used, Err(Refused(Refusal::NothingLeft, 0)));
    }
    let at = p.last + 1;
    move_at(b, used, false, at, b.standing - 1, &mut *text, history)
}

// 13, or its first undone step done again.
fn redo_next(b: Bench, used: usize, p: Pass, text: &mut [u32], history: &[u32]) -> Turned
    requires { Steppable true b p text.old history.now }
    ensures { leaves_of result text.new history.now
        ≡ stepped_on true b used p text.old history.now }
{
    if p.seen <= b.standing {
        return stays(b, used, Err(Refused(Refusal::NothingLeft, 0)));
    }
    let at = p.next + 1;
    move_at(b, used, true, at, b.standing + 1, &mut *text, history)
}

fn step_on(
    b: Bench,
    used: usize,
    forward: bool,
    p: Pass,
    text: &mut [u32],
    history: &[u32],
) -> Turned
    requires { Steppable forward b p text.old history.now }
    ensures { leaves_of result text.new history.now
        ≡ stepped_on forward b used p text.old history.now }
{
    if forward {
        redo_next(b, used, p, &mut *text, history)
    } else {
        undo_last(b, used, p, &mut *text, history)
    }
}

// The caller is bench 0, or else bench 1. Two branches: a `&mut` chosen by a test is not covered by the checker.
fn step_sound(
    b: Benches,
    bench: usize,
    forward: bool,
    p: Pass,
    text0: &mut [u32],
    text1: &mut [u32],
    history: &[u32],
) -> Edited
    requires { judge_of (state_of b text0.old text1.old history.now) bench ≡ Ok p }
    ensures { leaves result text0.new text1.new history.now []
        ≡ stepped_of forward (state_of b text0.old text1.old history.now) bench }
{
    let t = if bench == 0 {
        step_on(b.bench0, b.used, forward, p, &mut *text0, history)
    } else {
        step_on(b.bench1, b.used, forward, p, &mut *text1, history)
    };
    back(b, bench, t)
}

fn step_over(
    b: Benches,
    bench: usize,
    forward: bool,
    text0: &mut [u32],
    text1: &mut [u32],
    history: &[u32],
) -> Edited
    ensures { leaves result text0.new text1.new history.now []
        ≡ stepped_of forward (state_of b text0.old text1.old history.now) bench }
{
    match bench_records::judge(b, bench, &*text0, &*text1, history) {
        Err(why) => refused(b, Err(why)),
        Ok(p) => step_sound(b, bench, forward, p, &mut *text0, &mut *text1, history),
    }
}

// Takes the last standing step of a bench back.
pub fn undo(
    b: Benches,
    bench: usize,
    text0: &mut [u32],
    text1: &mut [u32],
    history: &[u32],
) -> Edited
    ensures { leaves result text0.new text1.new history.now []
        ≡ undo_of (state_of b text0.old text1.old history.now) bench }
{
    step_over(b, bench, false, &mut *text0, &mut *text1, history)
}

// Does the next undone step of a bench again.
pub fn redo(
    b: Benches,
    bench: usize,
    text0: &mut [u32],
    text1: &mut [u32],
    history: &[u32],
) -> Edited
    ensures { leaves result text0.new text1.new history.now []
        ≡ redo_of (state_of b text0.old text1.old history.now) bench }
{
    step_over(b, bench, true, &mut *text0, &mut *text1, history)
}

// 9, then 12; else the step is recorded and done.
fn replace_fitting(
    b: Bench,
    mine: usize,
    used: usize,
    p: Pass,
    place: usize,
    count: usize,
    cells: &[u32],
    text: &mut [u32],
    history: &mut [u32],
) -> Turned
    requires { (place + count ≤ b.length) × Shared b mine used p text.old history.old
        × (length cells.now ≤ limit) }
    ensures { leaves_of result text.new history.new
        ≡ fitting_on b mine used p (entry_at (take b.length text.old) place count cells.now)
        text.old history.old }
{
    let length = b.length - count + cells.len();
    if text.len() < length {
        return stays(b, used, Err(Refused(Refusal::NoRoom, length)));
    }
    let need = used - p.spare + (4 + count + cells.len());
    if history.len() < need {
        return stays(b, used, Err(Refused(Refusal::HistoryFull, need)));
    }
    let end = place + count;
    gap::record_step(
        &mut *history,
        used,
        mine,
        p.next,
        place,
        &text[place..end],
        cells,
    );
    let saved = page::mark_left(b.saved, b.standing);
    accept(
        b,
        place,
        count,
        cells,
        need,
        b.standing + 1,
        saved,
        &mut *text,
    )
}

// On sound benches: 11, then 10.
fn replace_on(
    b: Bench,
    mine: usize,
    used: usize,
    p: Pass,
    place: usize,
    count: usize,
    cells: &[u32],
    text: &mut [u32],
    history: &mut [u32],
) -> Turned
    requires { Shared b mine used p text.old history.old × (length cells.now ≤ limit) }
    ensures { leaves_of result text.new history.new
        ≡ replaced_on b mine used p place count cells.now text.old history.old }
{
    let length = b.length;
    if length < count || length - count < place {
        return stays(b, used, Err(Refused(Refusal::BeyondLength, length)));
    }
    let first = codec::first_unwritable(b.kind, cells);
    if first < cells.len() {
        return stays(b, used, Err(Refused(Refusal::Unwritable, first)));
    }
    replace_fitting(
        b,
        mine,
        used,
        p,
        place,
        count,
        cells,
        &mut *text,
        &mut *history,
    )
}

// The caller is bench 0, or else bench 1. Two branches: a `&mut` chosen by a test is not covered by the checker.
fn replace_sound(
    b: Benches,
    bench: usize,
    p: Pass,
    place: usize,
    count: usize,
    cells: &[u32],
    text0: &mut [u32],
    text1: &mut [u32],
    history: &mut [u32],
) -> Edited
    requires { (judge_of (state_of b text0.old text1.old history.old) bench ≡ Ok p)
        × (over cells.now ≡ false) }
    ensures { leaves result text0.new text1.new history.new []
        ≡ replace_of (state_of b text0.old text1.old history.old) bench place count
        cells.now }
{
    let used = b.used;
    let t = if bench == 0 {
        replace_on(
            b.bench0,
            0,
            used,
            p,
            place,
            count,
            cells,
            &mut *text0,
            &mut *history,
        )
    } else {
        replace_on(
            b.bench1,
            1,
            used,
            p,
            place,
            count,
            cells,
            &mut *text1,
            &mut *history,
        )
    };
    back(b, bench, t)
}

// Puts cells for `count` cells at a place of a bench's text, and records the step.
pub fn replace(
    b: Benches,
    bench: usize,
    place: usize,
    count: usize,
    cells: &[u32],
    text0: &mut [u32],
    text1: &mut [u32],
    history: &mut [u32],
) -> Edited
    ensures { leaves result text0.new text1.new history.new []
        ≡ replace_of (state_of b text0.old text1.old history.old) bench place count
        cells.now }
{
    if answer::over_limit(cells.len()) {
        return refused(b, answer::too_long());
    }
    match bench_records::judge(b, bench, &*text0, &*text1, &*history) {
        Err(why) => refused(b, Err(why)),
        Ok(p) => replace_sound(
            b,
            bench,
            p,
            place,
            count,
            cells,
            &mut *text0,
            &mut *text1,
            &mut *history,
        ),
    }
}

// The bench of a number that is 0 or 1.
fn bench_at(b: Benches, bench: usize) -> Bench
    ensures { result ≡ bench_at b bench }
{
    if bench == 0 { b.bench0 } else { b.bench1 }
}

// A bench as a page whose words done are its standing steps: save and the question look at no others.
fn page_of(b: Bench) -> Page
    ensures { result ≡ page_of b }
{
    Page {
        kind: b.kind,
        opening: b.opening,
        length: b.length,
        used: 0,
        done: b.standing,
        saved: b.saved,
    }
}

// On sound benches: the bytes, and the mark.
fn save_on(b: Bench, used: usize, cells: &[u32], arrived: &[u8], out: &mut [u8]) -> Turned
    ensures { (result.bench ≡ saved_bench b result.answer) × (result.used ≡ used)
        × (output.leaves result.answer out.new
        ≡ saved_in (page_of b) cells.now arrived.now out.old) }
{
    let kept = page::save_sound(page_of(b), cells, arrived, &mut *out);
    Turned {
        answer: kept.answer,
        bench: Bench {
            saved: kept.page.saved,
            ..b
        },
        used,
    }
}

// The caller is bench 0, or else bench 1.
fn save_sound(
    b: Benches,
    bench: usize,
    text0: &[u32],
    text1: &[u32],
    arrived: &[u8],
    out: &mut [u8],
) -> Edited
    requires { (b.bench0.length ≤ length text0.now) × (b.bench1.length ≤ length text1.now) }
    ensures { (result.benches ≡ turned_at b bench (saved_bench (bench_at b bench) result.answer))
        × (output.leaves result.answer out.new ≡ saved_in (page_of (bench_at b bench))
        (cells_at b bench text0.now text1.now) arrived.now out.old) }
{
    let caller = bench_at(b, bench);
    let cells = if bench == 0 { text0 } else { text1 };
    let t = save_on(caller, b.used, &cells[..caller.length], arrived, &mut *out);
    back(b, bench, t)
}

// Gives the arrived bytes where no step of the bench stands, else its text written in its kind; and its mark.
pub fn save(
    b: Benches,
    bench: usize,
    text0: &[u32],
    text1: &[u32],
    history: &[u32],
    arrived: &[u8],
    out: &mut [u8],
) -> Edited
    ensures { leaves result text0.now text1.now history.now out.new
        ≡ save_of (state_of b text0.now text1.now history.now) bench
        arrived.now out.old }
{
    if answer::over_limit(arrived.len()) {
        return refused(b, answer::too_long());
    }
    match bench_records::judge(b, bench, text0, text1, history) {
        Err(why) => refused(b, Err(why)),
        Ok(_) => save_sound(b, bench, text0, text1, arrived, &mut *out),
    }
}

// Whether a bench is as it was saved last, or opened: 16, 20, 14, else place 0.
pub fn unchanged(b: Benches, bench: usize, text0: &[u32], text1: &[u32], history: &[u32]) -> Asked
    ensures { replies result
        ≡ unchanged_of (state_of b text0.now text1.now history.now) bench }
{
    match bench_records::judge(b, bench, text0, text1, history) {
        Err(why) => Asked {
            answer: Err(why),
            unchanged: false,
        },
        Ok(_) => page::told(page_of(bench_at(b, bench))),
    }
}
