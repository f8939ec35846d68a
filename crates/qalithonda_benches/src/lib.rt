// The C interface, its benches. They are an object of their own in the archive, as the comparers are: beside
// a second user of the readers and of the page, LLVM would inline those otherwise for hosts.
#![tactic(auto)]

ghost use Rattle.std.specs.Prelude.{◌≡◌, []};
ghost use Rattle.benches.specs.Calls.{replace_of, undo_of, redo_of, save_of};
ghost use Rattle.host_pages.specs.Pages.{hears};
ghost use Rattle.host_benches.specs.Benches.{opened_on, on_benches, finds, asked_on};

use host_benches::{HostBenches, HostBenchesEdited};
use host_pages::HostAsked;

#[unsafe(no_mangle)]
pub extern "C" fn qalithonda_benches_open(
    kind0: u32,
    kind1: u32,
    arrived0: &[u8],
    arrived1: &[u8],
    text0: &mut [u32],
    text1: &mut [u32],
    history: &mut [u32],
) -> HostBenchesEdited
    ensures { finds result text0.new text1.new history.new []
        ≡ opened_on kind0 kind1 arrived0.now arrived1.now text0.old
        text1.old history.old }
{
    host_benches::open(kind0, kind1, arrived0, arrived1, text0, text1, history)
}

#[unsafe(no_mangle)]
pub extern "C" fn qalithonda_benches_replace(
    b: HostBenches,
    bench: usize,
    place: usize,
    count: usize,
    cells: &[u32],
    text0: &mut [u32],
    text1: &mut [u32],
    history: &mut [u32],
) -> HostBenchesEdited
    ensures { finds result text0.new text1.new history.new []
        ≡ on_benches b bench text0.old text1.old history.old [] cells.now
        (λ t. replace_of t bench place count cells.now) }
{
    host_benches::replace(b, bench, place, count, cells, text0, text1, history)
}

#[unsafe(no_mangle)]
pub extern "C" fn qalithonda_benches_undo(
    b: HostBenches,
    bench: usize,
    text0: &mut [u32],
    text1: &mut [u32],
    history: &[u32],
) -> HostBenchesEdited
    ensures { finds result text0.new text1.new history.now []
        ≡ on_benches b bench text0.old text1.old history.now [] []
        (λ t. undo_of t bench) }
{
    host_benches::undo(b, bench, text0, text1, history)
}

#[unsafe(no_mangle)]
pub extern "C" fn qalithonda_benches_redo(
    b: HostBenches,
    bench: usize,
    text0: &mut [u32],
    text1: &mut [u32],
    history: &[u32],
) -> HostBenchesEdited
    ensures { finds result text0.new text1.new history.now []
        ≡ on_benches b bench text0.old text1.old history.now [] []
        (λ t. redo_of t bench) }
{
    host_benches::redo(b, bench, text0, text1, history)
}

#[unsafe(no_mangle)]
pub extern "C" fn qalithonda_benches_save(
    b: HostBenches,
    bench: usize,
    text0: &[u32],
    text1: &[u32],
    history: &[u32],
    arrived: &[u8],
    out: &mut [u8],
) -> HostBenchesEdited
    ensures { finds result text0.now text1.now history.now out.new
        ≡ on_benches b bench text0.now text1.now history.now out.old
        arrived.now (λ t. save_of t bench arrived.now out.old) }
{
    host_benches::save(b, bench, text0, text1, history, arrived, out)
}

#[unsafe(no_mangle)]
pub extern "C" fn qalithonda_benches_unchanged(
    b: HostBenches,
    bench: usize,
    text0: &[u32],
    text1: &[u32],
    history: &[u32],
) -> HostAsked
    ensures { hears result
        ≡ asked_on b bench text0.now text1.now history.now }
{
    host_benches::unchanged(b, bench, text0, text1, history)
}
