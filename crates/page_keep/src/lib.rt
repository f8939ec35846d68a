// Keeping a page: its file, put into an output.
#![tactic(auto)]

mod opened;
mod put;

ghost use Rattle.std.specs.Prelude.{◌≡◌, cond, ◌++◌, ◌+◌, ◌*◌, ◌≤◌, length};
ghost use Rattle.std.proofs.lemmas.List.Edits.{sets};
ghost use Rattle.answer.specs.Answer.{limit, numbered};
ghost use Rattle.answer.specs.Output.{leaves, refusing, filled, deliver};
ghost use Rattle.ledger.specs.Page.{state_of};
ghost use Rattle.page_file.specs.File.{line, name_of, mark_of, file_of};
ghost use Rattle.page_file.specs.Inner.{belongs_by, form_if};
ghost use Rattle.page_file.specs.Calls.{keep_of};
ghost use Rattle.page_keep.specs.Inner.{form_line, head_of, content_by, is_long};

use answer::{Answer, Refusal, Refused};
use codec::Kind;
use ledger::Page;

fn name_size(kind: Kind) -> usize
    ensures { (result ≡ length (name_of kind)) × (result ≤ 5) }
{
    match kind {
        Kind::Utf7Header => 5,
        Kind::Utf7Body => 5,
        Kind::Jp2 => 3,
    }
}

fn width_of(two: bool) -> usize
    ensures { (result ≡ (form_if two).width) × (result ≤ 7) }
{
    if two {
        return 7;
    }
    5
}

fn mark_size(two: bool, mark: Option<usize>) -> usize
    ensures { (result ≡ length (mark_of (form_if two) mark)) × (result ≤ 7) }
{
    let Some(_) = mark else {
        return 4;
    };
    width_of(two)
}

// The size of a page's file: what every file has besides its kind, its numbers and its lists is 73 bytes.
fn size_of(two: bool, page: Page, arrived: &[u8], cells: &[u32], words: &[u32]) -> usize
    requires { (two ≡ is_long page arrived.now) × (length arrived.now ≤ limit) × (length cells.now ≤ limit)
        × (length words.now ≤ limit) }
    ensures { result ≡ length (file_of (content_by page cells.now words.now
        arrived.now)) }
{
    let kind = page.kind;
    let saved = page.saved;
    let names = name_size(kind) + mark_size(two, saved);
    73 + width_of(two) * 4 + names + arrived.len() * 2 + cells.len() * 8 + words.len() * 8
}

fn put_form(two: bool, out: &mut [u8]) -> usize
    requires { 7 ≤ length out.old }
    ensures { (result ≡ 7) × (out.new ≡ sets out.old 0 (form_line two)) }
{
    if two {
        return put::put_bytes(b"form=2\n", &mut *out, 0);
    }
    put::put_bytes(b"form=1\n", &mut *out, 0)
}

fn put_kind(kind: Kind, out: &mut [u8], at: usize) -> usize
    requires { at + length (line "kind" (name_of kind)) ≤ length out.old }
    ensures { (result ≡ at + length (line "kind" (name_of kind)))
        × (out.new ≡ sets out.old at (line "kind" (name_of kind))) }
{
    match kind {
        Kind::Utf7Header => put::put_bytes(b"kind=utf7h\n", &mut *out, at),
        Kind::Utf7Body => put::put_bytes(b"kind=utf7b\n", &mut *out, at),
        Kind::Jp2 => put::put_bytes(b"kind=jp2\n", &mut *out, at),
    }
}

fn put_saved(two: bool, mark: Option<usize>, out: &mut [u8], at: usize) -> usize
    requires { at + length (line "saved" (mark_of (form_if two) mark)) ≤ length out.old }
    ensures { (result ≡ at + length (line "saved" (mark_of (form_if two) mark)))
        × (out.new ≡ sets out.old at (line "saved" (mark_of (form_if two) mark))) }
{
    let Some(n) = mark else {
        return put::put_bytes(b"saved=none\n", &mut *out, at);
    };
    put::put_number(two, b"saved=", n, &mut *out, at)
}

// The first seven lines.
fn put_head(two: bool, page: Page, out: &mut [u8]) -> usize
    requires { length (head_of two page) ≤ length out.old }
    ensures { (result ≡ length (head_of two page))
        × (out.new ≡ sets out.old 0 (head_of two page)) }
{
    let kind = page.kind;
    let saved = page.saved;
    let name = put_form(two, &mut *out);
    let opening = put_kind(kind, &mut *out, name);
    let length = put::put_number(two, b"opening=", page.opening, &mut *out, opening);
    let used = put::put_number(two, b"length=", page.length, &mut *out, length);
    let done = put::put_number(two, b"used=", page.used, &mut *out, used);
    let mark = put::put_number(two, b"done=", page.done, &mut *out, done);
    put_saved(two, saved, &mut *out, mark)
}

fn put_file(two: bool, page: Page, cells: &[u32], words: &[u32], arrived: &[u8], out: &mut [u8])
    requires { (two ≡ is_long page arrived.now)
        × (length (file_of (content_by page cells.now words.now arrived.now)) ≤ length out.old) }
    ensures { out.new
        ≡ filled (file_of (content_by page cells.now words.now arrived.now))
        out.old }
{
    let head = put_head(two, page, &mut *out);
    let text = put::put_arrived(arrived, &mut *out, head);
    let history = put::put_words(b"text=", cells, &mut *out, text);
    put::put_words(b"history=", words, &mut *out, history);
}

// On a sound page: 15, then 9, else the file.
fn keep_sound(page: Page, cells: &[u32], words: &[u32], arrived: &[u8], out: &mut [u8]) -> Answer
    requires { (length arrived.now ≤ limit) × (length cells.now ≤ limit) × (length words.now ≤ limit) }
    ensures { leaves result out.new
        ≡ cond (belongs_by page cells.now arrived.now)
        (deliver (file_of (content_by page cells.now words.now arrived.now))
        out.old)
        (refusing (numbered 15 0) out.old) }
{
    if !opened::belongs(page, cells, arrived) {
        return Err(Refused(Refusal::NotTheText, 0));
    }
    let two = page_file::is_long(page, arrived.len());
    let size = size_of(two, page, arrived, cells, words);
    if out.len() < size {
        return Err(Refused(Refusal::NoRoom, size));
    }
    put_file(two, page, cells, words, arrived, &mut *out);
    Ok(size)
}

// Puts the page's file into the output: 16, 14, 15, 9.
pub fn keep(page: Page, text: &[u32], history: &[u32], arrived: &[u8], out: &mut [u8]) -> Answer
    ensures { leaves result out.new
        ≡ keep_of (state_of page text.now history.now) arrived.now out.old }
{
    if answer::over_limit(arrived.len()) {
        return answer::too_long();
    }
    records::judge(page, text, history)?;
    keep_sound(
        page,
        &text[..page.length],
        &history[..page.used],
        arrived,
        &mut *out,
    )
}
