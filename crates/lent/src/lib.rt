// The page lent: document 01, "thin functions take the page by &mut, call the by-value form and store the result".
#![tactic(auto)]

ghost use Rattle.std.specs.Prelude.{◌≡◌};
ghost use Rattle.ledger.specs.Page.{state_of, leaves, keeps};
ghost use Rattle.ledger.specs.Calls.{undo_of, redo_of, save_of};

use answer::Answer;
use ledger::{Edited, Page};

// Takes the last standing step of the lent page back.
pub fn undo(p: &mut Page, text: &mut [u32], history: &[u32]) -> Answer
    ensures { leaves (record { answer = result; page = p.new }) text.new history.now ≡ undo_of
        (state_of p.old text.old history.now) }
{
    let next = page::undo(*p, text, history);
    *p = next.page;
    next.answer
}

// Does the next undone step of the lent page again.
pub fn redo(p: &mut Page, text: &mut [u32], history: &[u32]) -> Answer
    ensures { leaves (record { answer = result; page = p.new }) text.new history.now ≡ redo_of
        (state_of p.old text.old history.now) }
{
    let next = page::redo(*p, text, history);
    *p = next.page;
    next.answer
}

// Saves the lent page, and marks it as saved.
pub fn save(p: &mut Page, text: &[u32], history: &[u32], arrived: &[u8], out: &mut [u8]) -> Answer
    ensures { keeps (record { answer = result; page = p.new }) text.now history.now
        out.new
        ≡ save_of (state_of p.old text.now history.now)
        arrived.now out.old }
{
    let next = page::save(*p, text, history, arrived, out);
    *p = next.page;
    next.answer
}

// Keeps a page, lends it to undo and gives it back: for whoever has the page by value.
pub fn undo_kept(p: Page, text: &mut [u32], history: &[u32]) -> Edited
    ensures { leaves result text.new history.now ≡ undo_of (state_of p text.old history.now) }
{
    let mut kept = p;
    let answer = undo(&mut kept, text, history);
    Edited { answer, page: kept }
}

// Keeps a page, lends it to redo and gives it back.
pub fn redo_kept(p: Page, text: &mut [u32], history: &[u32]) -> Edited
    ensures { leaves result text.new history.now ≡ redo_of (state_of p text.old history.now) }
{
    let mut kept = p;
    let answer = redo(&mut kept, text, history);
    Edited { answer, page: kept }
}
