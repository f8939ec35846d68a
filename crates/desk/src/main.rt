// desk KIND FILE: opens a letter as a page, and obeys the commands that come on standard input, one a line.
// desk page FILE: goes on with a page that was kept.
#![tactic(auto)]

mod files;
mod lines;
mod look;
mod names;
mod orders;
mod replies;
mod rooms;

ghost use Rattle.std.specs.Prelude.{length, ◌≤◌, ◌≡◌, IfSome};
ghost use Rattle.ledger.specs.Page.{leaves};
ghost use Rattle.codec.specs.declared.Kind.{Kind};
ghost use Rattle.desk.specs.Hands.{desk_in, Sits, Gave, OpenedAt, KeptAt};
ghost use Rattle.desk.specs.declared.Source.TheVariants.{Letter, Kept};

use codec::Kind;
use ledger::Edited;
use lines::Hand;
use std::env::{Env, FillError};
use std::rt::HostRuntime;

// What FILE is: a letter of some kind, or a page that was kept.
#[derive(Clone, Copy)]
enum Source {
    Letter(Kind),
    Kept,
}

// Whether the program has an argument.
fn has(rt: &HostRuntime, i: usize) -> bool {
    !matches!(rt.arg(i, &mut [0u8; 1]), Err(FillError::NotPresent))
}

// The name FILE, and how many bytes it has; where there is none, that is said.
fn file_name(rt: &HostRuntime, path: &mut [u8]) -> Option<usize>
    ensures { IfSome result (λ n. n ≤ length path.new) }
{
    let named = whole_file::process_argument(rt, 2, path);
    named.inspect_err(|e| replies::fail(rt, b"FILE", *e)).ok()
}

// The kind and the file that the program was started with.
fn main(rt: HostRuntime) {
    begin_with(&rt);
}

fn begin_with(rt: &HostRuntime) {
    if !has(rt, 2) || has(rt, 3) {
        replies::complain(
            rt,
            b"use: desk KIND FILE, where KIND is utf7h, utf7b or jp2, or desk page FILE",
        );
        return;
    }
    let mut word = [0u8; 8];
    let n = rt.arg(1, &mut word).unwrap_or(0);
    if commands::is_page(&word[..n]) {
        go_on(rt);
        return;
    }
    match commands::kind_named(&word[..n]) {
        Some(kind) => open(rt, kind),
        None => replies::complain(
            rt,
            b"KIND is utf7h, utf7b or jp2, or page for a page that was kept",
        ),
    }
}

// `desk KIND FILE`
fn open(rt: &HostRuntime, kind: Kind) {
    let mut path = [0u8; 4096];
    let Some(n) = file_name(rt, &mut path) else {
        return;
    };
    let mut letter = rooms::letter();
    let mut text = rooms::text();
    let mut history = [0u32; 262144];
    open_by(rt, kind, &path[..n], &mut letter, &mut text, &mut history);
}

// `desk page FILE`
fn go_on(rt: &HostRuntime) {
    let mut path = [0u8; 4096];
    let Some(n) = file_name(rt, &mut path) else {
        return;
    };
    let mut letter = rooms::arrived();
    let mut text = rooms::text();
    let mut history = [0u32; 262144];
    go_on_by(rt, &path[..n], &mut letter, &mut text, &mut history);
}

// Opens a letter by its name, and works on its page.
fn open_by(
    rt: &HostRuntime,
    kind: Kind,
    name: &[u8],
    letter: &mut [u8],
    text: &mut [u32],
    history: &mut [u32],
) -> Option<Hand>
    ensures { OpenedAt result kind text.old history.old
        letter.new text.new history.new }
{
    let what = Source::Letter(kind);
    let (given, n) = begin(rt, what, name, &mut *letter, &mut *text, &mut *history)?;
    Some(serve(rt, given, &letter[..n], &mut *text, &mut *history))
}

// Reads a page file by its name, and goes on with its page.
fn go_on_by(
    rt: &HostRuntime,
    name: &[u8],
    letter: &mut [u8],
    text: &mut [u32],
    history: &mut [u32],
) -> Option<Hand>
    ensures { KeptAt result letter.old text.old history.old
        text.new history.new }
{
    let what = Source::Kept;
    let (given, n) = begin(rt, what, name, &mut *letter, &mut *text, &mut *history)?;
    Some(serve(rt, given, &letter[..n], &mut *text, &mut *history))
}

// Makes a page of FILE. The room that a page file takes is given back here, before the page is worked on: the stack
// does not hold both. (It has two callers, and stays a function: one that has one caller is compiled into it.)
fn begin(
    rt: &HostRuntime,
    what: Source,
    name: &[u8],
    letter: &mut [u8],
    text: &mut [u32],
    history: &mut [u32],
) -> Option<(Edited, usize)>
    ensures { Gave what result letter.old text.old history.old
        letter.new text.new history.new }
{
    match what {
        Source::Letter(kind) => open_letter(
            rt,
            kind,
            name,
            &mut *letter,
            &mut *text,
            &mut *history,
        ),
        Source::Kept => {
            let mut file = rooms::page_file();
            read_page(rt, name, &mut file, &mut *letter, &mut *text, &mut *history)
        }
    }
}

fn open_letter(
    rt: &HostRuntime,
    kind: Kind,
    name: &[u8],
    letter: &mut [u8],
    text: &mut [u32],
    history: &mut [u32],
) -> Option<(Edited, usize)>
    ensures { Gave (Letter kind) result letter.old text.old history.old
        letter.new text.new history.new }
{
    let size = files::read(rt, name, &mut *letter)?;
    let given = page::open(kind, &letter[..size], &mut *text, &mut *history);
    Some((given, size))
}

fn read_page(
    rt: &HostRuntime,
    name: &[u8],
    file: &mut [u8],
    letter: &mut [u8],
    text: &mut [u32],
    history: &mut [u32],
) -> Option<(Edited, usize)>
    ensures { Gave Kept result letter.old text.old history.old
        letter.new text.new history.new }
{
    let size = files::read(rt, name, &mut *file)?;
    if files::PAGE_ROOM < size {
        replies::refuse(
            rt,
            name,
            b"is longer than 1572864 bytes, and there is no room for it",
        );
        return None;
    }
    let given = page_read::read(&file[..size], &mut *letter, &mut *text, &mut *history);
    let answer = given.answer;
    match answer {
        Ok(n) => Some((given, n)),
        Err(_) => Some((given, 0)),
    }
}

// Tells the answer, and works on the page where that is accepted. One that is not saved at the end of the input is
// spoken of.
fn serve(
    rt: &HostRuntime,
    given: Edited,
    letter: &[u8],
    text: &mut [u32],
    history: &mut [u32],
) -> Hand
    ensures { Sits (leaves given text.old history.old) letter.now
        (desk_in result text.new history.new) result }
{
    let answer = given.answer;
    let p = given.page;
    replies::tell(rt, answer);
    match answer {
        Ok(_) => {
            let hand = lines::work(rt, p, letter, &mut *text, &mut *history);
            lines::see_out(rt, hand, &*text, &*history);
            hand
        }
        Err(_) => lines::holding(p, 0, false, false, false),
    }
}
