// The page for hosts: its six calls, the question and the page file, with the kind and the mark as numbers.
ghost use Rattle.std.specs.Prelude.{◌≡◌, []};
ghost use Rattle.ledger.specs.Calls.{open_of, replace_of, undo_of, redo_of, save_of, squeeze_of};
ghost use Rattle.codec.specs.declared.Kind.TheVariants.{Utf7Header, Utf7Body, Jp2};
ghost use Rattle.page_file.specs.Calls.{read_of};
ghost use Rattle.host_numbers.specs.Numbers.{left};
ghost use Rattle.host_pages.specs.Pages.{hosted, on_page, finds, finds_output, asked_on, hears, kept_on};

use codec::Kind;
use host_numbers::Numbers;
use host_pages::{HostAsked, HostEdited, HostPage};

#[unsafe(no_mangle)]
pub extern "C" fn qalithonda_utf7_header_open(
    arrived: &[u8],
    text: &mut [u32],
    history: &mut [u32],
) -> HostEdited
    ensures { finds result text.new history.new
        ≡ hosted (open_of Utf7Header arrived.now text.old history.old) }
{
    host_pages::open(Kind::Utf7Header, arrived, text, history)
}

#[unsafe(no_mangle)]
pub extern "C" fn qalithonda_utf7_body_open(
    arrived: &[u8],
    text: &mut [u32],
    history: &mut [u32],
) -> HostEdited
    ensures { finds result text.new history.new
        ≡ hosted (open_of Utf7Body arrived.now text.old history.old) }
{
    host_pages::open(Kind::Utf7Body, arrived, text, history)
}

#[unsafe(no_mangle)]
pub extern "C" fn qalithonda_jp2_open(
    arrived: &[u8],
    text: &mut [u32],
    history: &mut [u32],
) -> HostEdited
    ensures { finds result text.new history.new
        ≡ hosted (open_of Jp2 arrived.now text.old history.old) }
{
    host_pages::open(Kind::Jp2, arrived, text, history)
}

#[unsafe(no_mangle)]
pub extern "C" fn qalithonda_replace(
    p: HostPage,
    place: usize,
    count: usize,
    cells: &[u32],
    text: &mut [u32],
    history: &mut [u32],
) -> HostEdited
    ensures { finds result text.new history.new
        ≡ on_page p text.old history.old [] cells.now
        (λ s. replace_of s place count cells.now) }
{
    host_pages::replace(p, place, count, cells, text, history)
}

#[unsafe(no_mangle)]
pub extern "C" fn qalithonda_undo(p: HostPage, text: &mut [u32], history: &[u32]) -> HostEdited
    ensures { finds result text.new history.now
        ≡ on_page p text.old history.now [] [] undo_of }
{
    host_pages::undo(p, text, history)
}

#[unsafe(no_mangle)]
pub extern "C" fn qalithonda_redo(p: HostPage, text: &mut [u32], history: &[u32]) -> HostEdited
    ensures { finds result text.new history.now
        ≡ on_page p text.old history.now [] [] redo_of }
{
    host_pages::redo(p, text, history)
}

#[unsafe(no_mangle)]
pub extern "C" fn qalithonda_save(
    p: HostPage,
    text: &[u32],
    history: &[u32],
    arrived: &[u8],
    out: &mut [u8],
) -> HostEdited
    ensures { finds_output result text.now history.now out.new
        ≡ on_page p text.now history.now out.old arrived.now
        (λ s. save_of s arrived.now out.old) }
{
    host_pages::save(p, text, history, arrived, out)
}

#[unsafe(no_mangle)]
pub extern "C" fn qalithonda_squeeze(
    p: HostPage,
    steps: usize,
    text: &[u32],
    history: &mut [u32],
    work: &mut [u32],
) -> HostEdited
    ensures { finds_output result text.now history.new work.new
        ≡ on_page p text.now history.old work.old []
        (λ s. squeeze_of s steps work.old) }
{
    host_pages::squeeze(p, steps, text, history, work)
}

#[unsafe(no_mangle)]
pub extern "C" fn qalithonda_unchanged(p: HostPage, text: &[u32], history: &[u32]) -> HostAsked
    ensures { hears result ≡ asked_on p text.now history.now }
{
    host_pages::unchanged(p, text, history)
}

#[unsafe(no_mangle)]
pub extern "C" fn qalithonda_page_keep(
    p: HostPage,
    text: &[u32],
    history: &[u32],
    arrived: &[u8],
    out: &mut [u8],
) -> Numbers
    ensures { left result out.new
        ≡ kept_on p text.now history.now arrived.now out.old }
{
    host_pages::keep(p, text, history, arrived, out)
}

#[unsafe(no_mangle)]
pub extern "C" fn qalithonda_page_read(
    file: &[u8],
    arrived: &mut [u8],
    text: &mut [u32],
    history: &mut [u32],
) -> HostEdited
    ensures { finds_output result text.new history.new arrived.new
        ≡ hosted (read_of arrived.old text.old history.old file.now) }
{
    host_pages::read(file, arrived, text, history)
}
