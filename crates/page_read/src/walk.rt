// Whether a page's records are sound, walked over by their hex digits in a file: what the crate records does over
// words.
ghost use Rattle.std.specs.Prelude.{◌≡◌, List, ℕ, ◌+◌, ◌-◌, ◌*◌, ◌<◌, ◌≤◌, ◌^◌, length, get_or, is_some};
ghost use Rattle.std.proofs.Math.Seq.{slice};
ghost use Rattle.answer.specs.Answer.{limit};
ghost use Rattle.ledger.specs.Page.{state_of, records};
ghost use Rattle.ledger.specs.Parts.{cut_in};
ghost use Rattle.records.specs.Walking.{walk_in, walk_cut, last_of};
ghost use Rattle.scan.specs.Inner.{hexes_at};
ghost use Rattle.page_read.specs.Inner.{Frames};

use crate::hex;
use ledger::Page;

// A word of the n words from a place on.
fn word_of(file: &[u8], base: usize, n: usize, i: usize) -> usize
    requires { (i < n) × (base + n * 8 ≤ length file.now) }
    ensures { (result ≡ get_or (hexes_at file.now base 8 n) i 0) × (result < 2 ^ 32) }
{
    records::wide(hex::word_at(file, base + i * 8))
}

// The records from one word to another of the n words from a place on, from a length on, where the record before begins
// at a word.
fn walk_records(
    file: &[u8],
    base: usize,
    n: usize,
    from: usize,
    to: usize,
    start: usize,
    before: usize,
    room: usize,
) -> Option<(usize, usize)>
    requires { (from ≤ to) × (to ≤ n) × (n ≤ limit) × (base + n * 8 ≤ length file.now) × (start ≤ room)
        × (room ≤ limit) }
    ensures { result ≡ walk_in room from start before (slice from to (hexes_at file.now base 8 n)) }
{
    let mut at = from;
    let mut len = start;
    let mut last = before;
    while at < to {
        if to - at < 3 {
            return None;
        }
        let place = word_of(file, base, n, at);
        let removed = word_of(file, base, n, at + 1);
        let added = word_of(file, base, n, at + 2);
        let size = 3 + removed + added;
        if to - at < size {
            return None;
        }
        if len < place + removed {
            return None;
        }
        let after = len - removed + added;
        if room < after {
            return None;
        }
        last = at;
        at += size;
        len = after;
    }
    Some((len, last))
}

// The records from one word to another, where a mark among those words is the end of one of them.
fn walk_marked(
    file: &[u8],
    base: usize,
    n: usize,
    from: usize,
    to: usize,
    start: usize,
    room: usize,
    mark: Option<usize>,
) -> Option<(usize, usize)>
    requires { (from ≤ to) × (to ≤ n) × (n ≤ limit) × (base + n * 8 ≤ length file.now) × (start ≤ room)
        × (room ≤ limit) }
    ensures { result ≡ walk_cut room from start from (cut_in mark from to - from)
        (slice from to (hexes_at file.now base 8 n)) }
{
    let cut = records::cut_in(mark, from, to);
    let (len, last) = walk_records(file, base, n, from, cut, start, from, room)?;
    walk_records(file, base, n, cut, to, len, last, room)
}

// Where the last standing record begins, in any buffers that begin with the page's lists and hold zeros past them, the
// text's of this length. None where the page is not sound with them.
fn survey(file: &[u8], base: usize, page: Page, room: usize) -> Option<usize>
    requires { (page.length ≤ room) × (room ≤ limit) × (page.used ≤ limit)
        × (base + page.used * 8 ≤ length file.now) }
    ensures { (t h : List ℕ) → Frames page room (hexes_at file.now base 8 page.used) t h →
        result ≡ last_of page.done (records (state_of page t h)) }
{
    let n = page.used;
    let saved = page.saved;
    if room < page.opening || n < page.done || !records::mark_within(saved, n) {
        return None;
    }
    let (reached, last) = walk_marked(file, base, n, 0, page.done, page.opening, room, saved)?;
    if reached != page.length {
        return None;
    }
    walk_marked(file, base, n, page.done, n, page.length, room, saved)?;
    Some(last)
}

// The page is sound with any such buffers.
#[tactic(auto, using(crate::proofs::Sounds::some_of_last))]
pub fn is_sound(file: &[u8], base: usize, page: Page, room: usize) -> bool
    requires { (page.length ≤ room) × (room ≤ limit) × (page.used ≤ limit)
        × (base + page.used * 8 ≤ length file.now) }
    ensures { (t h : List ℕ) → Frames page room (hexes_at file.now base 8 page.used) t h →
        result ≡ is_some (records (state_of page t h)) }
{
    survey(file, base, page, room).is_some()
}
