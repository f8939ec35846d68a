// The lines of standard input, each obeyed as soon as it has been read.
ghost use Rattle.std.specs.Prelude.{◌≤◌, ◌<◌, ◌≡◌, false, length};
ghost use Rattle.desk_lines.specs.Desk.{Turn};
ghost use Rattle.desk.specs.Hands.{Holds, line_in, desk_in, sitting, Took, closed, Worked};

use crate::{orders, replies, rooms};
use ledger::Page;
use std::rt::HostRuntime;

// A proved loop has to end, and nothing says that the input does: so it counts to a number that no run uses up.
const ROUNDS: u64 = u64::MAX;

// What the desk has in hand: the page, and the bytes from..to of the buffer, which came and were not yet taken.
#[derive(Clone, Copy)]
pub struct Hand {
    pub page: Page,
    pub from: usize,
    pub to: usize,
    // the line in hand is too long and is passed over
    pub passing: bool,
    // the input has ended
    pub ended: bool,
    // the last command was a quit
    pub warned: bool,
    // a line left the desk
    pub left: bool,
}

// Where the first LF is, or the end of the bytes in hand.
fn line_end(buf: &[u8], from: usize, to: usize) -> usize
    requires { (from ≤ to) × (to ≤ length buf.now) }
    ensures { (from ≤ result) × (result ≤ to) }
{
    let end = buf[from..to].iter().position(|&b| b == b'\n');
    end.map_or(to, |n| from + n)
}

// Moves the bytes from..to to the front, and says how many they are.
fn settle(buf: &mut [u8], from: usize, to: usize) -> usize
    requires { (from ≤ to) × (to ≤ length buf.old) }
    ensures { (result ≤ to) × (length buf.new ≡ length buf.old) }
{
    buf.copy_within(from..to, 0);
    to - from
}

// Reads once behind the bytes in hand, and says how many there are then: no more at the end of the input.
fn read_more(rt: &HostRuntime, buf: &mut [u8], held: usize) -> usize
    requires { held ≤ length buf.old }
    ensures { (held ≤ result) × (result ≤ length buf.new) × (length buf.new ≡ length buf.old) }
{
    match whole_file::read_some(&mut rt.stdin(), &mut buf[held..]) {
        Ok(n) => held + n,
        Err(e) => {
            replies::fail(rt, b"standard input", e);
            held
        }
    }
}

// The desk with some bytes at the front of the buffer in hand.
pub fn holding(page: Page, to: usize, passing: bool, ended: bool, warned: bool) -> Hand
    ensures { result
        ≡ record { page = page; from = 0; to = to; passing = passing; ended = ended; warned = warned; left = false } }
{
    Hand {
        page,
        from: 0,
        to,
        passing,
        ended,
        warned,
        left: false,
    }
}

// Gets more of the line in hand. A last line without LF is given one.
fn fetch(rt: &HostRuntime, hand: Hand, buf: &mut [u8]) -> Hand
    requires { Holds hand buf.old }
    ensures { Holds result buf.new × (length buf.new ≡ length buf.old)
        × (result.page ≡ hand.page) × (result.warned ≡ hand.warned) × (result.left ≡ false) }
{
    let page = hand.page;
    let warned = hand.warned;
    if hand.ended {
        return holding(page, 0, false, true, warned);
    }
    let from = if hand.passing { hand.to } else { hand.from };
    let held = settle(&mut *buf, from, hand.to);
    if held == buf.len() {
        replies::complain(rt, b"a line is longer than 65535 bytes");
        return holding(page, 0, true, false, warned);
    }
    let to = read_more(rt, &mut *buf, held);
    if held < to {
        return holding(page, to, hand.passing, false, warned);
    }
    if held == 0 {
        return holding(page, 0, false, true, warned);
    }
    buf[held] = b'\n';
    holding(page, held + 1, false, true, warned)
}

// The desk with the next line in hand.
fn past(hand: Hand, page: Page, from: usize, warned: bool, left: bool) -> Hand
    ensures { result
        ≡ record {
          page = page;
          from = from;
          to = hand.to;
          passing = false;
          ended = hand.ended;
          warned = warned;
          left = left;
        } }
{
    Hand {
        page,
        from,
        to: hand.to,
        passing: false,
        ended: hand.ended,
        warned,
        left,
    }
}

// Obeys the line that ends at a place, unless it is the rest of one that was too long.
fn take(
    rt: &HostRuntime,
    hand: Hand,
    end: usize,
    buf: &[u8],
    letter: &[u8],
    text: &mut [u32],
    history: &mut [u32],
) -> Hand
    requires { Holds hand buf.now × (hand.from ≤ end) × (end < hand.to) }
    ensures { Holds result buf.now
        × Took letter.now (line_in buf.now hand.from end)
        (sitting hand.page hand.warned text.old history.old)
        (desk_in result text.new history.new) hand.passing }
{
    let next = end + 1;
    let page = hand.page;
    if hand.passing {
        return past(hand, page, next, false, false);
    }
    let from = hand.from;
    let done = orders::obey(
        rt,
        page,
        hand.warned,
        &buf[from..next],
        letter,
        &mut *text,
        &mut *history,
    );
    let kept = done.page;
    past(hand, kept, next, done.warned, done.left)
}

// A line is obeyed, or more of it is got.
fn turn(
    rt: &HostRuntime,
    hand: Hand,
    buf: &mut [u8],
    letter: &[u8],
    text: &mut [u32],
    history: &mut [u32],
) -> Hand
    requires { Holds hand buf.old }
    ensures { Holds result buf.new
        × Turn letter.now (sitting hand.page hand.warned text.old history.old)
        (desk_in result text.new history.new) }
{
    let end = line_end(&*buf, hand.from, hand.to);
    if end < hand.to {
        return take(rt, hand, end, &*buf, letter, &mut *text, &mut *history);
    }
    fetch(rt, hand, &mut *buf)
}

// No more is obeyed: a line left the desk, or the input has ended and nothing of it is in hand.
fn is_closed(hand: Hand) -> bool
    ensures { result ≡ closed hand }
{
    hand.left || (hand.ended && hand.from == hand.to)
}

// Obeys line after line, until quit or the end of the input.
pub fn work(
    rt: &HostRuntime,
    page: Page,
    letter: &[u8],
    text: &mut [u32],
    history: &mut [u32],
) -> Hand
    ensures { Worked letter.now (sitting page false text.old history.old)
        (desk_in result text.new history.new) result }
{
    let mut space = rooms::lines();
    let buf: &mut [u8] = &mut space;
    let mut hand = holding(page, 0, false, false, false);
    for _turn in 0..ROUNDS {
        hand = turn(rt, hand, &mut *buf, letter, &mut *text, &mut *history);
        if is_closed(hand) {
            return hand;
        }
    }
    hand
}

// Says that the input ended on a page that is not saved. A line that left the desk was asked already.
pub fn see_out(rt: &HostRuntime, hand: Hand, text: &[u32], history: &[u32]) {
    let page = hand.page;
    if !orders::may_leave(page, hand.left, text, history) {
        replies::complain(rt, b"the input has ended, and the page is not saved");
    }
}
