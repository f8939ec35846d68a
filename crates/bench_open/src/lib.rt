// One open for two benches: both are judged before either text is changed.
#![tactic(auto)]

ghost use Rattle.std.specs.Prelude.{◌≡◌, true, [], ◌+◌, ◌≤◌};
ghost use Rattle.answer.specs.Answer.{limit, in_numbers};
ghost use Rattle.editor.specs.Layout.{taken};
ghost use Rattle.ledger.specs.Calls as pages;
ghost use Rattle.benches.specs.Benches.{leaves};
ghost use Rattle.benches.specs.Calls.{no_bench, open_of};
ghost use Rattle.bench_open.specs.Opens.{in_room, bench_of, refused_with, opened_with, both_of};

use answer::{Answer, Refusal, Refused};
use benches::{Bench, Benches, Edited};
use codec::Kind;
use ledger::Page;

// What a reading into no room answers, in a room of so many cells.
fn in_room(room: usize, answer: Answer) -> Answer
    ensures { in_numbers result ≡ in_room room (in_numbers answer) }
{
    match answer {
        Err(Refused(Refusal::NoRoom, count)) if count <= room => Ok(count),
        _ => answer,
    }
}

// What the open of a page would answer: a reading into no room judges and counts, and writes nothing.
fn would_open(kind: Kind, arrived: &[u8], text: &[u32], history: &[u32]) -> Answer
    ensures { in_numbers result
        ≡ (pages.open_of kind arrived.now text.now history.now).verdict }
{
    if answer::over_limit(arrived.len())
        || answer::over_limit(text.len())
        || answer::over_limit(history.len())
    {
        return answer::too_long();
    }
    let mut none = [0u32; 0];
    let answer = codec::read(kind.format(), arrived, &mut none);
    in_room(text.len(), answer)
}

fn no_bench(kind: Kind) -> Bench
    ensures { result ≡ no_bench kind }
{
    Bench {
        kind,
        opening: 0,
        length: 0,
        standing: 0,
        saved: None,
    }
}

// "refused, it gives the kinds, zeros and no marks"
fn not_opened(kind0: Kind, kind1: Kind, answer: Answer) -> Edited
    ensures { result ≡ refused_with kind0 kind1 answer }
{
    Edited {
        answer,
        benches: Benches {
            bench0: no_bench(kind0),
            bench1: no_bench(kind1),
            used: 0,
        },
    }
}

// The bench of a page just opened.
fn bench_of(page: Page) -> Bench
    ensures { result ≡ bench_of page }
{
    Bench {
        kind: page.kind,
        opening: page.opening,
        length: page.length,
        standing: 0,
        saved: page.saved,
    }
}

// "Accepted, its place is the sum of both counts"
fn opened(first: Page, second: Page) -> Edited
    requires { (first.length ≤ limit) × (second.length ≤ limit) }
    ensures { result ≡ opened_with first second }
{
    Edited {
        answer: Ok(first.length + second.length),
        benches: Benches {
            bench0: bench_of(first),
            bench1: bench_of(second),
            used: 0,
        },
    }
}

// Two opens that are both accepted.
fn open_both(
    kind0: Kind,
    kind1: Kind,
    arrived0: &[u8],
    arrived1: &[u8],
    text0: &mut [u32],
    text1: &mut [u32],
    history: &mut [u32],
) -> Edited
    requires { (taken (pages.open_of kind0 arrived0.now text0.old history.old) ≡ true)
        × (taken (pages.open_of kind1 arrived1.now text1.old history.old) ≡ true) }
    ensures { leaves result text0.new text1.new history.new []
        ≡ open_of (both_of kind0 kind1) (both_of arrived0.now arrived1.now)
        (both_of text0.old text1.old) history.old }
{
    let first = page::open(kind0, arrived0, &mut *text0, &mut *history);
    let second = page::open(kind1, arrived1, &mut *text1, &mut *history);
    opened(first.page, second.page)
}

// Reads both arrived texts and clears the history; bench 0's refusals come first.
pub fn open(
    kind0: Kind,
    kind1: Kind,
    arrived0: &[u8],
    arrived1: &[u8],
    text0: &mut [u32],
    text1: &mut [u32],
    history: &mut [u32],
) -> Edited
    ensures { leaves result text0.new text1.new history.new []
        ≡ open_of (both_of kind0 kind1) (both_of arrived0.now arrived1.now)
        (both_of text0.old text1.old) history.old }
{
    let first = would_open(kind0, arrived0, &*text0, &*history);
    let Ok(_) = first else {
        return not_opened(kind0, kind1, first);
    };
    let second = would_open(kind1, arrived1, &*text1, &*history);
    let Ok(_) = second else {
        return not_opened(kind0, kind1, second);
    };
    open_both(
        kind0,
        kind1,
        arrived0,
        arrived1,
        &mut *text0,
        &mut *text1,
        &mut *history,
    )
}
