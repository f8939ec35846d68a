// Two benches for hosts: their five calls and the question, with the kinds and the marks as numbers.
#![tactic(auto)]

ghost use Rattle.std.specs.Prelude.{◌≡◌, cond, ◌||◌, [], ltb};
ghost use Rattle.answer.specs.Answer.{in_numbers, numbered, limit, too_long};
ghost use Rattle.host_numbers.specs.Numbers.{verdict_in};
ghost use Rattle.host_pages.specs.Pages.{hears};
ghost use Rattle.benches.specs.Calls.{replace_of, undo_of, redo_of, save_of};
ghost use Rattle.host_benches.specs.Benches.{bench_in, benches_in, host_bench, host_benches, no_kind_in};
ghost use Rattle.host_benches.specs.Benches.{no_host_bench, unopened, opened_on, on_benches, finds, asked_on};

use answer::{Refusal, Refused};
use benches::{Bench, Benches, Edited};
use host_numbers::Numbers;
use host_pages::HostAsked;

// A bench: its kind (0 UTF-7 header, 1 UTF-7 body, 2 JP-2), its lengths, its standing steps, and its mark or NEVER.
#[repr(C)]
#[derive(Clone, Copy)]
pub struct HostBench {
    pub kind: u32,
    pub opening: usize,
    pub length: usize,
    pub standing: usize,
    pub saved: usize,
}

// Both benches, and the words used in the history between them.
#[repr(C)]
#[derive(Clone, Copy)]
pub struct HostBenches {
    pub bench0: HostBench,
    pub bench1: HostBench,
    pub used: usize,
}

// What open, replace, undo, redo and save give back.
#[repr(C)]
#[derive(Clone, Copy)]
pub struct HostBenchesEdited {
    pub answer: Numbers,
    pub benches: HostBenches,
}

fn bench_in(b: HostBench) -> Bench
    ensures { result ≡ bench_in b }
{
    Bench {
        kind: host_pages::kind_of(b.kind),
        opening: b.opening,
        length: b.length,
        standing: b.standing,
        saved: host_pages::mark_in(b.saved),
    }
}

fn benches_in(b: HostBenches) -> Benches
    ensures { result ≡ benches_in b }
{
    Benches {
        bench0: bench_in(b.bench0),
        bench1: bench_in(b.bench1),
        used: b.used,
    }
}

fn host_bench(b: Bench) -> HostBench
    ensures { result ≡ host_bench b }
{
    HostBench {
        kind: b.kind.into(),
        opening: b.opening,
        length: b.length,
        standing: b.standing,
        saved: host_pages::mark_number(b.saved),
    }
}

fn edited(e: Edited) -> HostBenchesEdited
    ensures { (verdict_in result.answer ≡ in_numbers e.answer) × (result.benches ≡ host_benches e.benches) }
{
    let both = e.benches;
    HostBenchesEdited {
        answer: e.answer.into(),
        benches: HostBenches {
            bench0: host_bench(both.bench0),
            bench1: host_bench(both.bench1),
            used: both.used,
        },
    }
}

#[tactic(auto, unfolding(crate::specs::Benches::no_kind_in))]
fn no_kind(b: HostBenches) -> bool
    ensures { result ≡ no_kind_in b }
{
    2 < b.bench0.kind || 2 < b.bench1.kind
}

// The answer to a bench of no kind: 16 if one of the lists lent is too long, then 20, else 14.
fn unsound(bench: usize, a: usize, b: usize, c: usize, d: usize) -> Numbers
    ensures { verdict_in result ≡ cond (ltb limit a || (ltb limit b || (ltb limit c || ltb limit d))) too_long
        (cond (ltb 1 bench) (numbered 20 0) (numbered 14 0)) }
{
    if answer::over_limit(a)
        || answer::over_limit(b)
        || answer::over_limit(c)
        || answer::over_limit(d)
    {
        return answer::too_long().into();
    }
    if 1 < bench {
        return Err(Refused(Refusal::NoSuchBench, 0)).into();
    }
    Err(Refused(Refusal::Unsound, 0)).into()
}

fn no_host_bench(kind: u32) -> HostBench
    ensures { result ≡ no_host_bench kind }
{
    HostBench {
        kind,
        opening: 0,
        length: 0,
        standing: 0,
        saved: host_pages::NEVER,
    }
}

// "refused, it gives the kinds, zeros and no marks", whatever numbers the kinds are
fn not_opened(kind0: u32, kind1: u32) -> HostBenches
    ensures { result ≡ unopened kind0 kind1 }
{
    HostBenches {
        bench0: no_host_bench(kind0),
        bench1: no_host_bench(kind1),
        used: 0,
    }
}

// The answer to an open by a number that is no kind: 16 if one of the lists lent is too long, else 14.
fn unread(a: usize, b: usize, c: usize, d: usize, e: usize) -> Numbers
    ensures { verdict_in result
        ≡ cond (ltb limit a || (ltb limit b || (ltb limit c || (ltb limit d || ltb limit e)))) too_long
        (numbered 14 0) }
{
    if answer::over_limit(a) {
        return answer::too_long().into();
    }
    unsound(0, b, c, d, e)
}

pub fn open(
    kind0: u32,
    kind1: u32,
    arrived0: &[u8],
    arrived1: &[u8],
    text0: &mut [u32],
    text1: &mut [u32],
    history: &mut [u32],
) -> HostBenchesEdited
    ensures { finds result text0.new text1.new history.new []
        ≡ opened_on kind0 kind1 arrived0.now arrived1.now text0.old
        text1.old history.old }
{
    let none = not_opened(kind0, kind1);
    if no_kind(none) {
        let answer = unread(
            arrived0.len(),
            arrived1.len(),
            text0.len(),
            text1.len(),
            history.len(),
        );
        return HostBenchesEdited {
            answer,
            benches: none,
        };
    }
    let first = host_pages::kind_of(kind0);
    let second = host_pages::kind_of(kind1);
    edited(bench_open::open(first, second, arrived0, arrived1, text0, text1, history))
}

pub fn replace(
    b: HostBenches,
    bench: usize,
    place: usize,
    count: usize,
    cells: &[u32],
    text0: &mut [u32],
    text1: &mut [u32],
    history: &mut [u32],
) -> HostBenchesEdited
    ensures { finds result text0.new text1.new history.new []
        ≡ on_benches b bench text0.old text1.old history.old [] cells.now
        (λ t. replace_of t bench place count cells.now) }
{
    if no_kind(b) {
        let answer = unsound(bench, cells.len(), text0.len(), text1.len(), history.len());
        return HostBenchesEdited { answer, benches: b };
    }
    edited(bench_calls::replace(
        benches_in(b),
        bench,
        place,
        count,
        cells,
        text0,
        text1,
        history,
    ))
}

pub fn undo(
    b: HostBenches,
    bench: usize,
    text0: &mut [u32],
    text1: &mut [u32],
    history: &[u32],
) -> HostBenchesEdited
    ensures { finds result text0.new text1.new history.now []
        ≡ on_benches b bench text0.old text1.old history.now [] []
        (λ t. undo_of t bench) }
{
    if no_kind(b) {
        let answer = unsound(bench, 0, text0.len(), text1.len(), history.len());
        return HostBenchesEdited { answer, benches: b };
    }
    edited(bench_calls::undo(benches_in(b), bench, text0, text1, history))
}

pub fn redo(
    b: HostBenches,
    bench: usize,
    text0: &mut [u32],
    text1: &mut [u32],
    history: &[u32],
) -> HostBenchesEdited
    ensures { finds result text0.new text1.new history.now []
        ≡ on_benches b bench text0.old text1.old history.now [] []
        (λ t. redo_of t bench) }
{
    if no_kind(b) {
        let answer = unsound(bench, 0, text0.len(), text1.len(), history.len());
        return HostBenchesEdited { answer, benches: b };
    }
    edited(bench_calls::redo(benches_in(b), bench, text0, text1, history))
}

// A host that could not keep the bytes keeps the benches that it gave.
pub fn save(
    b: HostBenches,
    bench: usize,
    text0: &[u32],
    text1: &[u32],
    history: &[u32],
    arrived: &[u8],
    out: &mut [u8],
) -> HostBenchesEdited
    ensures { finds result text0.now text1.now history.now out.new
        ≡ on_benches b bench text0.now text1.now history.now out.old
        arrived.now (λ t. save_of t bench arrived.now out.old) }
{
    if no_kind(b) {
        let answer = unsound(
            bench,
            arrived.len(),
            text0.len(),
            text1.len(),
            history.len(),
        );
        return HostBenchesEdited { answer, benches: b };
    }
    edited(bench_calls::save(benches_in(b), bench, text0, text1, history, arrived, out))
}

pub fn unchanged(
    b: HostBenches,
    bench: usize,
    text0: &[u32],
    text1: &[u32],
    history: &[u32],
) -> HostAsked
    ensures { hears result
        ≡ asked_on b bench text0.now text1.now history.now }
{
    if no_kind(b) {
        let answer = unsound(bench, 0, text0.len(), text1.len(), history.len());
        return HostAsked {
            answer,
            unchanged: 0,
        };
    }
    host_pages::asked(bench_calls::unchanged(benches_in(b), bench, text0, text1, history))
}
