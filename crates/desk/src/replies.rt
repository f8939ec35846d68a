// What the desk says: answers on standard output, in the listers' style, and complaints on standard error.
use answer::Answer;
use std::io::{Error, Write};
use std::rt::HostRuntime;

// What each complaint begins with.
const NAME: &[u8] = b"desk";

// How many cells are listed at a time.
const PART: usize = 4096;

// An answer in its two lines.
pub fn tell(rt: &HostRuntime, given: Answer) {
    let mut lines = [0u8; 64];
    let told = listing::tell(given, &mut lines);
    if let Ok(size) = told
        && size <= 64
    {
        let _ = rt.stdout().write_all(&lines[..size]);
    }
}

// Lists cells after a count, and writes what is listed from a place on, but for some last bytes.
fn list_part(
    rt: &HostRuntime,
    count: usize,
    cells: &[u32],
    from: usize,
    less: usize,
    lines: &mut [u8],
) -> bool {
    let listed = listing::list(Ok(count), cells, &mut *lines);
    if let Ok(size) = listed
        && let Some(to) = size.checked_sub(less)
        && let Some(part) = lines.get(from..to)
    {
        return rt.stdout().write_all(part).is_ok();
    }
    false
}

// More cells of a text, part by part, each behind a space. The lines before the cells, which are not written, have 23
// bytes; the LF is written behind the last part.
fn show_more(rt: &HostRuntime, cells: &[u32], lines: &mut [u8]) {
    let mut rest = cells;
    while !rest.is_empty() {
        let (part, behind) = rest.split_at(rest.len().min(PART));
        let less = usize::from(!behind.is_empty());
        if rt.stdout().write_all(b" ").is_err() {
            return;
        }
        if !list_part(rt, 0, part, 23, less, &mut *lines) {
            return;
        }
        rest = behind;
    }
}

// The length of a text and its cells, part by part, so that no buffer is as long as the listing.
pub fn show(rt: &HostRuntime, cells: &[u32]) {
    let mut lines = [0u8; 40960];
    if cells.len() <= PART {
        list_part(rt, cells.len(), cells, 0, 0, &mut lines);
        return;
    }
    if list_part(rt, cells.len(), &cells[..PART], 0, 1, &mut lines) {
        show_more(rt, &cells[PART..], &mut lines);
    }
}

// A line on standard error. What cannot be written there is not told.
pub fn complain(rt: &HostRuntime, what: &[u8]) {
    let _ = complain::line(&mut rt.stderr(), NAME, what);
}

// A line on standard error: what failed, and the system's text.
pub fn fail(rt: &HostRuntime, what: &[u8], e: Error) {
    let _ = complain::fail(&mut rt.stderr(), NAME, what, e);
}

// A line on standard error: why nothing was done to what has a name.
pub fn refuse(rt: &HostRuntime, name: &[u8], why: &[u8]) {
    let _ = complain::refuse(&mut rt.stderr(), NAME, name, why);
}

// A line on standard error: a name, what failed, and the system's text.
pub fn fail_at(rt: &HostRuntime, name: &[u8], what: &[u8], e: Error) {
    let _ = complain::fail_at(&mut rt.stderr(), NAME, name, what, e);
}
