// One command: the page after it is the definition's, whatever the line says.
ghost use Rattle.std.specs.Prelude.{◌≤◌, true, false, ◌||◌, ◌≡◌, length, eqb};
ghost use Rattle.std.specs.Prelude.{None};
ghost use Rattle.reading.specs.Reading.{accepted};
ghost use Rattle.ledger.specs.Page.{state_of};
ghost use Rattle.ledger.specs.Calls.{unchanged_of};
ghost use Rattle.commands.specs.declared.Verb.TheVariants.{Replace, Undo, Redo, Quit, Squeeze};
ghost use Rattle.desk_lines.specs.Desk.{line_room, replacing, room, saving, asked, after_call, begun, after_command, after_line};
ghost use Rattle.desk.specs.Hands.{desk_at, sitting};

use crate::{files, replies, rooms};
use commands::{Verb, numbers};
use ledger::{Edited, Page};
use std::rt::HostRuntime;

// The page after a command, and what became of its file and of the desk.
#[derive(Clone, Copy)]
pub struct Done {
    pub page: Page,
    // a save's file is in its place
    pub put: bool,
    // the command was a quit, or there was none and the last one was
    pub warned: bool,
    // the desk is left
    pub left: bool,
}

// Tells the answer of a call, and goes on with its page.
fn told(rt: &HostRuntime, edited: Edited) -> Page
    ensures { result ≡ edited.page }
{
    let answer = edited.answer;
    let page = edited.page;
    replies::tell(rt, answer);
    page
}

// Replaces as some numbers say: a place, a count, and the cells.
fn replace_by(
    rt: &HostRuntime,
    p: Page,
    numbers: &[u32],
    text: &mut [u32],
    history: &mut [u32],
) -> Page
    ensures { state_of result text.new history.new
        ≡ after_call (replacing accepted numbers.now) (state_of p text.old history.old) }
{
    if numbers.len() < 2 {
        return p;
    }
    let place = records::wide(numbers[0]);
    let count = records::wide(numbers[1]);
    told(
        rt,
        page::replace(p, place, count, &numbers[2..], &mut *text, &mut *history),
    )
}

// `replace PLACE COUNT CELL..`
fn replace(rt: &HostRuntime, p: Page, words: &[u8], text: &mut [u32], history: &mut [u32]) -> Page
    requires { length words.now ≤ line_room }
    ensures { state_of result text.new history.new
        ≡ after_call (asked None Replace words.now) (state_of p text.old history.old) }
{
    let mut found = [0u32; 65536];
    let read = numbers::read(2, words, &mut found);
    let n = answer::place(read);
    match read {
        Ok(_) => {
            if n <= 65536 {
                return replace_by(rt, p, &found[..n], &mut *text, &mut *history);
            }
            p
        }
        Err(_) => {
            replies::complain(
                rt,
                b"replace PLACE COUNT CELL..: two decimal numbers, then cells in hex, none over FFFFFFFF",
            );
            p
        }
    }
}

// Whether nothing follows a command; what does is complained of.
fn alone(rt: &HostRuntime, words: &[u8]) -> bool
    ensures { result ≡ eqb (length words.now) 0 }
{
    if words.is_empty() {
        return true;
    }
    replies::complain(rt, b"nothing may follow this command");
    false
}

// `undo`
fn undo(rt: &HostRuntime, p: Page, words: &[u8], text: &mut [u32], history: &[u32]) -> Page
    ensures { state_of result text.new history.now
        ≡ after_call (asked None Undo words.now) (state_of p text.old history.now) }
{
    if !alone(rt, words) {
        return p;
    }
    told(rt, lent::undo_kept(p, &mut *text, history))
}

// `redo`
fn redo(rt: &HostRuntime, p: Page, words: &[u8], text: &mut [u32], history: &[u32]) -> Page
    ensures { state_of result text.new history.now
        ≡ after_call (asked None Redo words.now) (state_of p text.old history.now) }
{
    if !alone(rt, words) {
        return p;
    }
    told(rt, lent::redo_kept(p, &mut *text, history))
}

// `squeeze K`
fn squeeze(rt: &HostRuntime, p: Page, words: &[u8], text: &[u32], history: &mut [u32]) -> Page
    ensures { state_of result text.now history.new
        ≡ after_call (asked None Squeeze words.now) (state_of p text.now history.old) }
{
    let mut found = [0u32; 1];
    let read = numbers::read(1, words, &mut found);
    match read {
        Ok(_) => {
            let k = records::wide(found[0]);
            let mut work = [0u32; 262144];
            told(rt, squeeze::squeeze(p, k, text, &mut *history, &mut work))
        }
        Err(_) => {
            replies::complain(rt, b"squeeze K: one decimal number, not over 4294967295");
            p
        }
    }
}

// `show`
fn show(rt: &HostRuntime, p: Page, words: &[u8], text: &[u32]) {
    if !alone(rt, words) {
        return;
    }
    let n = p.length;
    if n <= text.len() {
        replies::show(rt, &text[..n]);
    }
}

// Where the last byte that is no blank ends.
fn name_end(words: &[u8]) -> usize
    ensures { result ≤ length words.now }
{
    let end = words.iter().rposition(|&b| !commands::is_blank(b));
    end.map_or(0, |last| last + 1)
}

// A command that is no quit, and whose file, if it is to have one, was not put.
fn stays(p: Page) -> Done
    ensures { result ≡ record { page = p; put = false; warned = false; left = false } }
{
    Done {
        page: p,
        put: false,
        warned: false,
        left: false,
    }
}

// Saves under a name, by way of an output. The desk goes on with the page that save gave only where the file is in its
// place: otherwise the mark is as it was.
fn save_in(
    rt: &HostRuntime,
    p: Page,
    name: &[u8],
    letter: &[u8],
    text: &[u32],
    history: &[u32],
    out: &mut [u8],
) -> Done
    ensures { desk_at result text.now history.now
        ≡ begun (after_call (saving letter.now out.old result.put)
        (state_of p text.now history.now)) }
{
    let saved = page::save(p, text, history, letter, &mut *out);
    let answer = saved.answer;
    let marked = saved.page;
    let n = answer::place(answer);
    match answer {
        Ok(_) => {
            if n <= out.len() {
                if files::put(rt, name, &out[..n]) {
                    replies::tell(rt, answer);
                    return Done {
                        page: marked,
                        put: true,
                        warned: false,
                        left: false,
                    };
                }
            }
            stays(p)
        }
        Err(_) => {
            replies::tell(rt, answer);
            stays(p)
        }
    }
}

// `save FILE`: the name goes to the end of the line and may hold spaces. The answer is told when the file is in its
// place.
fn save(
    rt: &HostRuntime,
    p: Page,
    words: &[u8],
    letter: &[u8],
    text: &[u32],
    history: &[u32],
) -> Done
    ensures { desk_at result text.now history.now
        ≡ begun (after_call (saving letter.now room result.put)
        (state_of p text.now history.now)) }
{
    let end = name_end(words);
    if end == 0 {
        replies::complain(rt, b"save FILE: the name is missing");
        return stays(p);
    }
    let mut out = rooms::output();
    save_in(rt, p, &words[..end], letter, text, history, &mut out)
}

// Keeps a page under a name, by way of an output. The page is as it was.
fn keep_in(
    rt: &HostRuntime,
    p: Page,
    name: &[u8],
    letter: &[u8],
    text: &[u32],
    history: &[u32],
    out: &mut [u8],
) {
    let answer = page_keep::keep(p, text, history, letter, &mut *out);
    let n = answer::place(answer);
    match answer {
        Ok(_) => {
            if n <= out.len() {
                if files::put(rt, name, &out[..n]) {
                    replies::tell(rt, answer);
                }
            }
        }
        Err(_) => replies::tell(rt, answer),
    }
}

// `keep FILE`: the name is as a save's.
fn keep(rt: &HostRuntime, p: Page, words: &[u8], letter: &[u8], text: &[u32], history: &[u32]) {
    let end = name_end(words);
    if end == 0 {
        replies::complain(rt, b"keep FILE: the name is missing");
        return;
    }
    let mut out = rooms::output();
    keep_in(rt, p, &words[..end], letter, text, history, &mut out);
}

// Whether a page may be left: it is saved, or whoever leaves it was warned.
pub fn may_leave(p: Page, warned: bool, text: &[u32], history: &[u32]) -> bool
    ensures { result
        ≡ (warned || (unchanged_of (state_of p text.now history.now)).unchanged) }
{
    warned || page::unchanged(p, text, history).unchanged
}

// `quit`: a page that is not saved is left only by a second one.
fn quit(
    rt: &HostRuntime,
    p: Page,
    words: &[u8],
    warned: bool,
    text: &[u32],
    history: &[u32],
) -> Done
    ensures { desk_at result text.now history.now
        ≡ after_command None (sitting p warned text.now history.now) Quit words.now }
{
    if !alone(rt, words) {
        return stays(p);
    }
    if may_leave(p, warned, text, history) {
        return Done {
            page: p,
            put: false,
            warned: true,
            left: true,
        };
    }
    replies::complain(
        rt,
        b"the page is not saved: save FILE, or quit again to leave it",
    );
    Done {
        page: p,
        put: false,
        warned: true,
        left: false,
    }
}

// A command with what follows its name.
fn act(
    rt: &HostRuntime,
    p: Page,
    warned: bool,
    verb: Verb,
    words: &[u8],
    letter: &[u8],
    text: &mut [u32],
    history: &mut [u32],
) -> Done
    requires { length words.now ≤ line_room }
    ensures { desk_at result text.new history.new
        ≡ after_command (saving letter.now room result.put)
        (sitting p warned text.old history.old) verb words.now }
{
    match verb {
        Verb::Nothing => Done {
            page: p,
            put: false,
            warned,
            left: false,
        },
        Verb::Unknown => {
            replies::complain(
                rt,
                b"no such command: show, replace PLACE COUNT CELL.., undo, redo, squeeze K, save FILE, keep FILE, quit",
            );
            stays(p)
        }
        Verb::Show => {
            show(rt, p, words, &*text);
            stays(p)
        }
        Verb::Save => save(rt, p, words, letter, &*text, &*history),
        Verb::Replace => stays(replace(rt, p, words, &mut *text, &mut *history)),
        Verb::Undo => stays(undo(rt, p, words, &mut *text, &*history)),
        Verb::Redo => stays(redo(rt, p, words, &mut *text, &*history)),
        Verb::Squeeze => stays(squeeze(rt, p, words, &*text, &mut *history)),
        Verb::Keep => {
            keep(rt, p, words, letter, &*text, &*history);
            stays(p)
        }
        Verb::Quit => quit(rt, p, words, warned, &*text, &*history),
    }
}

// Obeys a line. The letter is lent again to save.
pub fn obey(
    rt: &HostRuntime,
    p: Page,
    warned: bool,
    line: &[u8],
    letter: &[u8],
    text: &mut [u32],
    history: &mut [u32],
) -> Done
    requires { length line.now ≤ line_room }
    ensures { desk_at result text.new history.new
        ≡ after_line letter.now (sitting p warned text.old history.old)
        (record { line = line.now; put = result.put }) }
{
    let said = commands::parse(line);
    let verb = said.verb;
    let rest = said.rest;
    act(
        rt,
        p,
        warned,
        verb,
        &line[rest..],
        letter,
        &mut *text,
        &mut *history,
    )
}
