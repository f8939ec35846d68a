// Reading a page's file. Nothing is written before everything is judged.
#![tactic(auto)]

mod hex;
mod lines;
mod opened;
mod walk;

ghost use Rattle.std.specs.Prelude.{◌≡◌, ◌+◌, ◌*◌, ◌≤◌, length};
ghost use Rattle.answer.specs.Answer.{limit};
ghost use Rattle.codec.specs.declared.Kind.TheVariants.{Utf7Header};
ghost use Rattle.ledger.specs.Words.{pad};
ghost use Rattle.ledger.specs.Page.{keeps, records};
ghost use Rattle.ledger.specs.Calls.{no_page};
ghost use Rattle.scan.specs.Inner.{hexes_at};
ghost use Rattle.page_file.specs.Calls.{state_from, given, read_parted, read_fitting, read_of};
ghost use Rattle.page_read.specs.Inner.{content_in, Lists};

use answer::{Answer, Refusal, Refused};
use codec::Kind;
use ledger::{Edited, Page};
use lines::Plan;

// "Refused, the page is utf7h, zeros, none."
fn unread(answer: Answer) -> Edited
    ensures { result ≡ record { answer = answer; page = no_page Utf7Header } }
{
    let kind = Kind::Utf7Header;
    let saved = None;
    Edited {
        answer,
        page: Page {
            kind,
            opening: 0,
            length: 0,
            used: 0,
            done: 0,
            saved,
        },
    }
}

fn fill_bytes(file: &[u8], from: usize, n: usize, out: &mut [u8])
    requires { (from + n * 2 ≤ length file.now) × (n ≤ length out.old) }
    ensures { out.new ≡ pad (length out.old) (hexes_at file.now from 2 n) }
{
    hex::read_bytes(file, from, n, &mut *out);
    out[n..].fill(0);
}

fn fill_words(file: &[u8], from: usize, n: usize, out: &mut [u32])
    requires { (from + n * 8 ≤ length file.now) × (n ≤ length out.old) }
    ensures { out.new ≡ pad (length out.old) (hexes_at file.now from 8 n) }
{
    hex::read_words(file, from, n, &mut *out);
    splice::clear_from(&mut *out, n);
}

// Fills the three buffers.
fn take_in(
    file: &[u8],
    plan: Plan,
    arrived: &mut [u8],
    text: &mut [u32],
    history: &mut [u32],
) -> Edited
    requires { Lists file.now plan × (plan.count ≤ length arrived.old) × (plan.page.length ≤ length text.old)
        × (plan.page.used ≤ length history.old) }
    ensures { keeps result text.new history.new arrived.new
        ≡ given arrived.old text.old history.old
        (content_in file.now plan) }
{
    let page = plan.page;
    let count = plan.count;
    fill_bytes(file, plan.arrived, count, &mut *arrived);
    fill_words(file, plan.text, page.length, &mut *text);
    fill_words(file, plan.history, page.used, &mut *history);
    Edited {
        answer: Ok(count),
        page,
    }
}

// 14, then 15.
fn read_sound(
    file: &[u8],
    plan: Plan,
    arrived: &mut [u8],
    text: &mut [u32],
    history: &mut [u32],
) -> Edited
    requires { Lists file.now plan × (plan.count ≤ length arrived.old) × (plan.page.length ≤ length text.old)
        × (plan.page.used ≤ length history.old)
        × (length text.old ≤ limit) × (length history.old ≤ limit) }
    ensures { keeps result text.new history.new arrived.new
        ≡ read_parted arrived.old text.old history.old
        (content_in file.now plan)
        (records (state_from arrived.old text.old history.old
        (content_in file.now plan))) }
{
    let page = plan.page;
    if !walk::is_sound(file, plan.history, page, text.len()) {
        return unread(Err(Refused(Refusal::Unsound, 0)));
    }
    if !opened::belongs(file, plan) {
        return unread(Err(Refused(Refusal::NotTheText, 0)));
    }
    take_in(file, plan, &mut *arrived, &mut *text, &mut *history)
}

// 9 for the first list that lacks room.
fn read_fitting(
    file: &[u8],
    plan: Plan,
    arrived: &mut [u8],
    text: &mut [u32],
    history: &mut [u32],
) -> Edited
    requires { Lists file.now plan × (length text.old ≤ limit) × (length history.old ≤ limit) }
    ensures { keeps result text.new history.new arrived.new
        ≡ read_fitting arrived.old text.old history.old
        (content_in file.now plan) }
{
    let page = plan.page;
    if arrived.len() < plan.count {
        return unread(Err(Refused(Refusal::NoRoom, plan.count)));
    }
    if text.len() < page.length {
        return unread(Err(Refused(Refusal::NoRoom, page.length)));
    }
    if history.len() < page.used {
        return unread(Err(Refused(Refusal::NoRoom, page.used)));
    }
    read_sound(file, plan, &mut *arrived, &mut *text, &mut *history)
}

// Reads a page file into three buffers: 16, 18, 9, 14, 15. The place is the count of arrived bytes.
pub fn read(file: &[u8], arrived: &mut [u8], text: &mut [u32], history: &mut [u32]) -> Edited
    ensures { keeps result text.new history.new arrived.new
        ≡ read_of arrived.old text.old history.old file.now }
{
    if answer::over_limit(arrived.len()) {
        return unread(answer::too_long());
    }
    if answer::over_limit(text.len()) {
        return unread(answer::too_long());
    }
    if answer::over_limit(history.len()) {
        return unread(answer::too_long());
    }
    let plan = lines::plan_of(file);
    if !plan.ok {
        return unread(Err(Refused(Refusal::BadPageFile, plan.at)));
    }
    read_fitting(file, plan, &mut *arrived, &mut *text, &mut *history)
}
