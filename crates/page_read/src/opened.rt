// Whether a file's arrived bytes belong to its page, read by their hex digits one by one: nothing is written before all
// is judged.
ghost use Rattle.std.specs.Prelude.{◌≡◌, ◌+◌, ◌*◌, ◌≤◌, length};
ghost use Rattle.answer.specs.Answer.{in_numbers};
ghost use Rattle.reading.specs.Reading.{verdict_of, reading};
ghost use Rattle.reading.specs.Matching as matching;
ghost use Rattle.utf7.specs.Rule.{utf7};
ghost use Rattle.jp2.specs.Rule.{jp2};
ghost use Rattle.codec.specs.Kinds.{reading_in, reads_as};
ghost use Rattle.scan.specs.Inner.{hexes_at};
ghost use Rattle.page_file.specs.Calls.{counted};
ghost use Rattle.page_file.specs.Inner.{belongs_by};
ghost use Rattle.page_read.specs.Inner.{content_in, Lists};

use crate::hex;
use crate::lines::Plan;
use answer::{Answer, Refused};
use codec::Kind;
use reading::Move;

// The answer of reading n bytes with room enough.
fn utf7_answer(file: &[u8], base: usize, n: usize) -> Answer
    requires { base + n * 2 ≤ length file.now }
    ensures { in_numbers result ≡ verdict_of (reading utf7 (hexes_at file.now base 2 n)) }
{
    let mut at: usize = 0;
    let mut count: usize = 0;
    let mut st = utf7_read::State::Outside;
    while at < n {
        let b = hex::byte_at(file, base + at * 2);
        match utf7_read::byte_does(st, b) {
            Move::Give(_, state) => {
                st = state;
                count += 1;
                at += 1;
            }
            Move::Go(state) => {
                st = state;
                at += 1;
            }
            Move::Bad(why) => {
                return Err(Refused(why, at));
            }
        }
    }
    utf7_read::ends_in(at, count, st)
}

fn jp2_answer(file: &[u8], base: usize, n: usize) -> Answer
    requires { base + n * 2 ≤ length file.now }
    ensures { in_numbers result ≡ verdict_of (reading jp2 (hexes_at file.now base 2 n)) }
{
    let mut at: usize = 0;
    let mut count: usize = 0;
    let mut st = jp2_read::begin();
    while at < n {
        let b = hex::byte_at(file, base + at * 2);
        match jp2_read::feed(st, b) {
            Move::Give(_, state) => {
                st = state;
                count += 1;
                at += 1;
            }
            Move::Go(state) => {
                st = state;
                at += 1;
            }
            Move::Bad(why) => {
                return Err(Refused(why, at));
            }
        }
    }
    jp2_read::finish(at, count, st)
}

fn answer_of(kind: Kind, file: &[u8], base: usize, n: usize) -> Answer
    requires { base + n * 2 ≤ length file.now }
    ensures { in_numbers result ≡ verdict_of (reading_in kind (hexes_at file.now base 2 n)) }
{
    match kind {
        Kind::Utf7Header => utf7_answer(file, base, n),
        Kind::Utf7Body => utf7_answer(file, base, n),
        Kind::Jp2 => jp2_answer(file, base, n),
    }
}

// The bytes are accepted and have so many cells.
fn has_cells(kind: Kind, file: &[u8], base: usize, n: usize, cells: usize) -> bool
    requires { base + n * 2 ≤ length file.now }
    ensures { result ≡ counted cells (reading_in kind (hexes_at file.now base 2 n)) }
{
    let answer = answer_of(kind, file, base, n);
    let Ok(count) = answer else {
        return false;
    };
    count == cells
}

// The n bytes are accepted and read as the m words of the text.
fn utf7_same(file: &[u8], base: usize, n: usize, text: usize, m: usize) -> bool
    requires { (base + n * 2 ≤ length file.now) × (text + m * 8 ≤ length file.now) }
    ensures { result ≡ matching.reads_as utf7 (hexes_at file.now base 2 n)
        (hexes_at file.now text 8 m) }
{
    let mut at: usize = 0;
    let mut count: usize = 0;
    let mut st = utf7_read::State::Outside;
    while at < n {
        let b = hex::byte_at(file, base + at * 2);
        match utf7_read::byte_does(st, b) {
            Move::Give(value, state) => {
                if m <= count {
                    return false;
                }
                if hex::word_at(file, text + count * 8) != value {
                    return false;
                }
                st = state;
                count += 1;
                at += 1;
            }
            Move::Go(state) => {
                st = state;
                at += 1;
            }
            Move::Bad(_) => {
                return false;
            }
        }
    }
    match utf7_read::ends_in(at, count, st) {
        Ok(_) => count == m,
        Err(_) => false,
    }
}

fn jp2_same(file: &[u8], base: usize, n: usize, text: usize, m: usize) -> bool
    requires { (base + n * 2 ≤ length file.now) × (text + m * 8 ≤ length file.now) }
    ensures { result ≡ matching.reads_as jp2 (hexes_at file.now base 2 n)
        (hexes_at file.now text 8 m) }
{
    let mut at: usize = 0;
    let mut count: usize = 0;
    let mut st = jp2_read::begin();
    while at < n {
        let b = hex::byte_at(file, base + at * 2);
        match jp2_read::feed(st, b) {
            Move::Give(value, state) => {
                if m <= count {
                    return false;
                }
                if hex::word_at(file, text + count * 8) != value {
                    return false;
                }
                st = state;
                count += 1;
                at += 1;
            }
            Move::Go(state) => {
                st = state;
                at += 1;
            }
            Move::Bad(_) => {
                return false;
            }
        }
    }
    match jp2_read::finish(at, count, st) {
        Ok(_) => count == m,
        Err(_) => false,
    }
}

fn same_text(kind: Kind, file: &[u8], base: usize, n: usize, text: usize, m: usize) -> bool
    requires { (base + n * 2 ≤ length file.now) × (text + m * 8 ≤ length file.now) }
    ensures { result ≡ reads_as kind (hexes_at file.now base 2 n) (hexes_at file.now text 8 m) }
{
    match kind {
        Kind::Utf7Header => utf7_same(file, base, n, text, m),
        Kind::Utf7Body => utf7_same(file, base, n, text, m),
        Kind::Jp2 => jp2_same(file, base, n, text, m),
    }
}

// On a sound page: with nothing standing the bytes read as the text, else as the opening number of cells.
pub fn belongs(file: &[u8], plan: Plan) -> bool
    requires { Lists file.now plan }
    ensures { result ≡ belongs_by plan.page (content_in file.now plan).text
        (content_in file.now plan).arrived }
{
    let page = plan.page;
    let kind = page.kind;
    if page.done == 0 {
        return same_text(kind, file, plan.arrived, plan.count, plan.text, page.length);
    }
    has_cells(kind, file, plan.arrived, plan.count, page.opening)
}
