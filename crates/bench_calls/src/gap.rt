// The shared history after a replace: the caller's undone records are dropped, the gap is closed in one pass to the
// left, and the new record is put last.
ghost use Rattle.std.specs.Prelude.{◌≡◌, ◌∷◌, ◌++◌, ◌+◌, ◌≤◌, ◌<◌, ◌^◌, length, get_or, take, drop};
ghost use Rattle.std.proofs.Math.Seq.{paste};
ghost use Rattle.answer.specs.Answer.{limit};
ghost use Rattle.ledger.specs.Words.{words_of, pad};
ghost use Rattle.splice.specs.Splice.{Filled};
ghost use Rattle.bench_calls.specs.Gap.{Tiles, closed, Closes};

// The words of the record that begins at a word.
fn size_at(history: &[u32], at: usize) -> usize
    requires { at + 4 ≤ length history.now }
    ensures { result ≡ 4 + get_or history.now (at + 2) 0 + get_or history.now (at + 3) 0 }
{
    let removed = records::wide(history[at + 2]);
    let added = records::wide(history[at + 3]);
    4 + removed + added
}

// A record of the other bench is moved to the left; one of the caller's is dropped.
fn keep_other(history: &mut [u32], at: usize, to: usize, size: usize, mine: usize) -> usize
    requires { (to ≤ at) × (at + size ≤ length history.old) × (0 < size) }
    ensures { (get_or history.old at 0 ≡ mine → (result ≡ to) × (history.new ≡ history.old))
        × ((get_or history.old at 0 ≡ mine → ⊥) → (result ≡ to + size)
        × (history.new ≡ paste history.old to (drop at history.old) size)) }
{
    if records::wide(history[at]) == mine {
        return to;
    }
    splice::shift_left(&mut *history, at, to, size);
    to + size
}

// Drops every record of the caller's from a word on, and gives how many words stay.
fn close_gap(history: &mut [u32], used: usize, mine: usize, from: usize) -> usize
    requires { (from ≤ used) × (used ≤ length history.old) × (length history.old ≤ limit) × (mine ≤ 1)
        × Tiles from used history.old }
    ensures { Closes mine from used history.old history.new result }
{
    let mut at = from;
    let mut to = from;
    while at < used {
        let size = size_at(&*history, at);
        to = keep_other(&mut *history, at, to, size, mine);
        at += size;
    }
    to
}

// Puts a step's record in place of all words used from a word on: its first four words, and then the cells.
fn put_record(
    history: &mut [u32],
    used: usize,
    at: usize,
    mine: usize,
    place: usize,
    removed: &[u32],
    added: &[u32],
)
    requires { Filled used history.old × (at ≤ used)
        × (at + (4 + length removed.now + length added.now) ≤ length history.old) × (mine ≤ 1)
        × (place < 2 ^ 32) × (length removed.now < 2 ^ 32) × (length added.now < 2 ^ 32) }
    ensures { history.new ≡ pad (length history.old) (take at history.old
        ++ mine ∷ words_of (record { place = place; removed = removed.now; added = added.now })) }
{
    let head = [
        mine as u32,
        place as u32,
        removed.len() as u32,
        added.len() as u32,
    ];
    let first = splice::splice_in(&mut *history, used, at, used - at, &head);
    let second = splice::splice_in(&mut *history, first, first, 0, removed);
    splice::splice_in(&mut *history, second, second, 0, added);
}

// The caller's records from a word on make way for a new one.
pub fn record_step(
    history: &mut [u32],
    used: usize,
    mine: usize,
    from: usize,
    place: usize,
    removed: &[u32],
    added: &[u32],
)
    requires { (from ≤ used) × Filled used history.old × (length history.old ≤ limit) × (mine ≤ 1)
        × Tiles from used history.old
        × (length (closed mine from used history.old) + (4 + length removed.now + length added.now)
        ≤ length history.old)
        × (place < 2 ^ 32) × (length removed.now < 2 ^ 32) × (length added.now < 2 ^ 32) }
    ensures { history.new ≡ pad (length history.old)
        (closed mine from used history.old ++ mine
        ∷ words_of (record { place = place; removed = removed.now; added = added.now })) }
{
    let end = close_gap(&mut *history, used, mine, from);
    put_record(&mut *history, used, end, mine, place, removed, added);
}
