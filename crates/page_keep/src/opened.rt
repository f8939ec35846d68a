// Whether arrived bytes belong to a page. Nothing is lent to be written: the bytes are read one by one.
ghost use Rattle.std.specs.Prelude.{◌≡◌};
ghost use Rattle.answer.specs.Answer.{in_numbers};
ghost use Rattle.reading.specs.Reading.{verdict_of, reading};
ghost use Rattle.utf7.specs.Rule.{utf7};
ghost use Rattle.jp2.specs.Rule.{jp2};
ghost use Rattle.codec.specs.Kinds.{reading_in};
ghost use Rattle.page_file.specs.Calls.{counted};
ghost use Rattle.page_file.specs.Inner.{belongs_by};

use answer::{Answer, Refused};
use codec::Kind;
use ledger::Page;
use reading::Move;

// The answer of reading a text with room enough.
fn utf7_answer(text: &[u8]) -> Answer
    ensures { in_numbers result ≡ verdict_of (reading utf7 text.now) }
{
    let mut at: usize = 0;
    let mut n: usize = 0;
    let mut st = utf7_read::State::Outside;
    while at < text.len() {
        match utf7_read::byte_does(st, text[at]) {
            Move::Give(_, state) => {
                st = state;
                n += 1;
                at += 1;
            }
            Move::Go(state) => {
                st = state;
                at += 1;
            }
            Move::Bad(why) => {
                return Err(Refused(why, at));
            }
        }
    }
    utf7_read::ends_in(at, n, st)
}

fn jp2_answer(text: &[u8]) -> Answer
    ensures { in_numbers result ≡ verdict_of (reading jp2 text.now) }
{
    let mut at: usize = 0;
    let mut n: usize = 0;
    let mut st = jp2_read::begin();
    while at < text.len() {
        match jp2_read::feed(st, text[at]) {
            Move::Give(_, state) => {
                st = state;
                n += 1;
                at += 1;
            }
            Move::Go(state) => {
                st = state;
                at += 1;
            }
            Move::Bad(why) => {
                return Err(Refused(why, at));
            }
        }
    }
    jp2_read::finish(at, n, st)
}

fn answer_of(kind: Kind, text: &[u8]) -> Answer
    ensures { in_numbers result ≡ verdict_of (reading_in kind text.now) }
{
    match kind {
        Kind::Utf7Header => utf7_answer(text),
        Kind::Utf7Body => utf7_answer(text),
        Kind::Jp2 => jp2_answer(text),
    }
}

// A text is accepted and has n cells.
fn has_cells(kind: Kind, text: &[u8], n: usize) -> bool
    ensures { result ≡ counted n (reading_in kind text.now) }
{
    let answer = answer_of(kind, text);
    let Ok(count) = answer else {
        return false;
    };
    count == n
}

// On a sound page: with nothing standing the bytes read as the text, else as the opening number of cells.
pub fn belongs(page: Page, cells: &[u32], arrived: &[u8]) -> bool
    ensures { result ≡ belongs_by page cells.now arrived.now }
{
    let kind = page.kind;
    if page.done == 0 {
        return codec::reads_as(kind.format(), arrived, cells);
    }
    has_cells(kind, arrived, page.opening)
}
