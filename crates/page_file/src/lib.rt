// The page file: its ten lines, reading them, and what keeping a page and reading a file answer and leave. Definitions
// and laws; in code only which of the two forms is due.
#![tactic(auto)]

ghost use Rattle.std.specs.Prelude.{◌≡◌, max, ltb};
ghost use Rattle.page_file.specs.File.{greatest};

use ledger::Page;

pub fn greater(a: usize, b: usize) -> usize
    ensures { result ≡ max a b }
{
    a.max(b)
}

// The greatest of a page's five numbers.
pub fn greatest_of(page: Page) -> usize
    ensures { result ≡ greatest page }
{
    let marked = page.done.max(page.saved.unwrap_or(0));
    page.opening.max(page.length.max(page.used.max(marked)))
}

// Whether form 2 is due, with so many bytes arrived.
pub fn is_long(page: Page, arrived: usize) -> bool
    ensures { result ≡ ltb 65536 (max (greatest page) arrived) }
{
    65536 < greatest_of(page).max(arrived)
}
