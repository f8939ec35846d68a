// Both benches lent: document 01's thin functions, for order 13's calls. Each takes the benches by &mut, calls the
// by-value form and stores the result.
#![tactic(auto)]

ghost use Rattle.std.specs.Prelude.{◌≡◌, []};
ghost use Rattle.benches.specs.Benches.{state_of};
ghost use Rattle.benches.specs.Calls.{replace_of, undo_of, redo_of, save_of};
ghost use Rattle.bench_lent.specs.Lent.{left};

use answer::Answer;
use benches::Benches;

// Puts cells for `count` cells at a place of a lent bench's text, and records the step.
pub fn replace(
    b: &mut Benches,
    bench: usize,
    place: usize,
    count: usize,
    cells: &[u32],
    text0: &mut [u32],
    text1: &mut [u32],
    history: &mut [u32],
) -> Answer
    ensures { left result b.new text0.new text1.new history.new [] ≡ replace_of
        (state_of b.old text0.old text1.old history.old)
        bench place count cells.now }
{
    let next = bench_calls::replace(*b, bench, place, count, cells, text0, text1, history);
    *b = next.benches;
    next.answer
}

// Takes the last standing step of a lent bench back.
pub fn undo(
    b: &mut Benches,
    bench: usize,
    text0: &mut [u32],
    text1: &mut [u32],
    history: &[u32],
) -> Answer
    ensures { left result b.new text0.new text1.new history.now [] ≡ undo_of
        (state_of b.old text0.old text1.old history.now) bench }
{
    let next = bench_calls::undo(*b, bench, text0, text1, history);
    *b = next.benches;
    next.answer
}

// Does the next undone step of a lent bench again.
pub fn redo(
    b: &mut Benches,
    bench: usize,
    text0: &mut [u32],
    text1: &mut [u32],
    history: &[u32],
) -> Answer
    ensures { left result b.new text0.new text1.new history.now [] ≡ redo_of
        (state_of b.old text0.old text1.old history.now) bench }
{
    let next = bench_calls::redo(*b, bench, text0, text1, history);
    *b = next.benches;
    next.answer
}

// Saves a lent bench, and marks it as saved.
pub fn save(
    b: &mut Benches,
    bench: usize,
    text0: &[u32],
    text1: &[u32],
    history: &[u32],
    arrived: &[u8],
    out: &mut [u8],
) -> Answer
    ensures { left result b.new text0.now text1.now history.now
        out.new ≡ save_of
        (state_of b.old text0.now text1.now history.now)
        bench arrived.now out.old }
{
    let next = bench_calls::save(*b, bench, text0, text1, history, arrived, out);
    *b = next.benches;
    next.answer
}
