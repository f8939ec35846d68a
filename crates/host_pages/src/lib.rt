// The page for hosts: its six calls, the question and the page file, with the kind and the mark as numbers.
#![tactic(auto)]

ghost use Rattle.std.specs.Prelude.{◌≡◌, cond, ◌||◌, ltb, ◌≤◌, ◌<◌, [], MatchResult};
ghost use Rattle.answer.specs.Answer.{in_numbers, numbered, limit, too_long};
ghost use Rattle.ledger.specs.Page.{replies};
ghost use Rattle.ledger.specs.Calls.{open_of, replace_of, undo_of, redo_of, save_of, squeeze_of};
ghost use Rattle.page_file.specs.Calls.{read_of};
ghost use Rattle.host_numbers.specs.Numbers.{verdict_in, left};
ghost use Rattle.host_pages.specs.Pages.{kind_of, mark_in, mark_number, page_in, host_page};
ghost use Rattle.host_pages.specs.Pages.{hosted, on_page, finds, finds_output, in_reply, asked_on, hears, kept_on};

use answer::{Refusal, Refused};
use codec::{Kind, NoKind};
use host_numbers::Numbers;
use ledger::{Asked, Edited, Page};

// The number of no mark: C's SIZE_MAX.
pub const NEVER: usize = 18446744073709551615;

// A page: its kind (0 UTF-7 header, 1 UTF-7 body, 2 JP-2), its lengths, and its saved mark or NEVER.
#[repr(C)]
#[derive(Clone, Copy)]
pub struct HostPage {
    pub kind: u32,
    pub opening: usize,
    pub length: usize,
    pub used: usize,
    pub done: usize,
    pub saved: usize,
}

// What open, replace, undo, redo, save, squeeze and read give back.
#[repr(C)]
#[derive(Clone, Copy)]
pub struct HostEdited {
    pub answer: Numbers,
    pub page: HostPage,
}

// What the question answers: 1, the page is as it was saved, or opened; else 0.
#[repr(C)]
#[derive(Clone, Copy)]
pub struct HostAsked {
    pub answer: Numbers,
    pub unchanged: u32,
}

// Every number above 1 is taken for JP-2's.
#[tactic(auto, unfolding(crate::specs::Pages::kind_of))]
pub fn kind_of(number: u32) -> Kind
    ensures { result ≡ kind_of number }
{
    match number {
        0 => Kind::Utf7Header,
        1 => Kind::Utf7Body,
        _ => Kind::Jp2,
    }
}

#[tactic(auto, unfolding(crate::specs::Pages::mark_in))]
pub fn mark_in(number: usize) -> Option<usize>
    ensures { result ≡ mark_in number }
{
    (number != NEVER).then_some(number)
}

#[tactic(auto, unfolding(crate::specs::Pages::mark_number))]
pub fn mark_number(mark: Option<usize>) -> usize
    ensures { result ≡ mark_number mark }
{
    mark.unwrap_or(NEVER)
}

// The page of a host, if its kind is one.
fn page_in(p: HostPage) -> Result<Page, NoKind>
    ensures { MatchResult result (λ page. (p.kind ≤ 2) × (page ≡ page_in p)) (λ _. 2 < p.kind) }
{
    Ok(Page {
        kind: Kind::try_from(p.kind)?,
        opening: p.opening,
        length: p.length,
        used: p.used,
        done: p.done,
        saved: mark_in(p.saved),
    })
}

fn edited(e: Edited) -> HostEdited
    ensures { (verdict_in result.answer ≡ in_numbers e.answer) × (result.page ≡ host_page e.page) }
{
    let page = e.page;
    HostEdited {
        answer: e.answer.into(),
        page: HostPage {
            kind: page.kind.into(),
            opening: page.opening,
            length: page.length,
            used: page.used,
            done: page.done,
            saved: mark_number(page.saved),
        },
    }
}

pub fn asked(a: Asked) -> HostAsked
    ensures { hears result ≡ in_reply (replies a) }
{
    HostAsked {
        answer: a.answer.into(),
        unchanged: a.unchanged as u32,
    }
}

// The answer to a page of no kind, whose lent lists have these lengths: 16 if that holds, else 14.
fn no_kind(a: usize, b: usize, c: usize) -> Numbers
    ensures { verdict_in result ≡ cond (ltb limit a || (ltb limit b || ltb limit c)) too_long (numbered 14 0) }
{
    if answer::over_limit(a) || answer::over_limit(b) || answer::over_limit(c) {
        return answer::too_long().into();
    }
    Err(Refused(Refusal::Unsound, 0)).into()
}

pub fn open(kind: Kind, arrived: &[u8], text: &mut [u32], history: &mut [u32]) -> HostEdited
    ensures { finds result text.new history.new
        ≡ hosted (open_of kind arrived.now text.old history.old) }
{
    edited(page::open(kind, arrived, text, history))
}

pub fn replace(
    p: HostPage,
    place: usize,
    count: usize,
    cells: &[u32],
    text: &mut [u32],
    history: &mut [u32],
) -> HostEdited
    ensures { finds result text.new history.new
        ≡ on_page p text.old history.old [] cells.now
        (λ s. replace_of s place count cells.now) }
{
    match page_in(p) {
        Ok(page) => edited(page::replace(page, place, count, cells, text, history)),
        Err(_) => HostEdited {
            answer: no_kind(cells.len(), text.len(), history.len()),
            page: p,
        },
    }
}

pub fn undo(p: HostPage, text: &mut [u32], history: &[u32]) -> HostEdited
    ensures { finds result text.new history.now
        ≡ on_page p text.old history.now [] [] undo_of }
{
    match page_in(p) {
        Ok(page) => edited(page::undo(page, text, history)),
        Err(_) => HostEdited {
            answer: no_kind(0, text.len(), history.len()),
            page: p,
        },
    }
}

pub fn redo(p: HostPage, text: &mut [u32], history: &[u32]) -> HostEdited
    ensures { finds result text.new history.now
        ≡ on_page p text.old history.now [] [] redo_of }
{
    match page_in(p) {
        Ok(page) => edited(page::redo(page, text, history)),
        Err(_) => HostEdited {
            answer: no_kind(0, text.len(), history.len()),
            page: p,
        },
    }
}

// A host that could not keep the bytes keeps the page that it gave.
pub fn save(
    p: HostPage,
    text: &[u32],
    history: &[u32],
    arrived: &[u8],
    out: &mut [u8],
) -> HostEdited
    ensures { finds_output result text.now history.now out.new
        ≡ on_page p text.now history.now out.old arrived.now
        (λ s. save_of s arrived.now out.old) }
{
    match page_in(p) {
        Ok(page) => edited(page::save(page, text, history, arrived, out)),
        Err(_) => HostEdited {
            answer: no_kind(arrived.len(), text.len(), history.len()),
            page: p,
        },
    }
}

// The work buffer may have any length: 16 does not look at it.
pub fn squeeze(
    p: HostPage,
    k: usize,
    text: &[u32],
    history: &mut [u32],
    work: &mut [u32],
) -> HostEdited
    ensures { finds_output result text.now history.new work.new
        ≡ on_page p text.now history.old work.old []
        (λ s. squeeze_of s k work.old) }
{
    match page_in(p) {
        Ok(page) => edited(squeeze::squeeze(page, k, text, history, work)),
        Err(_) => HostEdited {
            answer: no_kind(0, text.len(), history.len()),
            page: p,
        },
    }
}

pub fn unchanged(p: HostPage, text: &[u32], history: &[u32]) -> HostAsked
    ensures { hears result ≡ asked_on p text.now history.now }
{
    match page_in(p) {
        Ok(page) => asked(page::unchanged(page, text, history)),
        Err(_) => HostAsked {
            answer: no_kind(0, text.len(), history.len()),
            unchanged: 0,
        },
    }
}

// Puts the page's file into the output, and changes nothing else.
pub fn keep(p: HostPage, text: &[u32], history: &[u32], arrived: &[u8], out: &mut [u8]) -> Numbers
    ensures { left result out.new
        ≡ kept_on p text.now history.now arrived.now out.old }
{
    match page_in(p) {
        Ok(page) => page_keep::keep(page, text, history, arrived, out).into(),
        Err(_) => no_kind(arrived.len(), text.len(), history.len()),
    }
}

// A page file may have any length: 16 looks at the three buffers.
pub fn read(file: &[u8], arrived: &mut [u8], text: &mut [u32], history: &mut [u32]) -> HostEdited
    ensures { finds_output result text.new history.new arrived.new
        ≡ hosted (read_of arrived.old text.old history.old file.now) }
{
    edited(page_read::read(file, arrived, text, history))
}
