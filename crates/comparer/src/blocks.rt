// Two texts that read as the same cells, seen at the pace of reading: they are cut behind line ends, and a block of
// lines is read by itself and compared with as many lines of the other. By document 02, order 9 a text is read as its
// blocks are. Where that tells nothing, the texts are stepped through.
ghost use Rattle.std.specs.Prelude.{◌≡◌, true, ◌≤◌, length, take};
ghost use Rattle.codec.specs.Kinds.{reads_in};
ghost use Rattle.comparer.specs.Cutting.{Ended, ReadAlike, Cut};

use codec::Format;

// A block has so many bytes at most, and so its cells fit a buffer of 8 KiB: reading takes 48 KiB of the stack besides.
const MOST: usize = 2048;

// Behind the last line end between two places, or the first of them where there is none.
fn last_end(text: &[u8], from: usize, to: usize) -> usize
    requires { (from ≤ to) × (to ≤ length text.now) }
    ensures { (from ≤ result) × (result ≤ to) × Ended text.now from result }
{
    for at in (from..to).rev() {
        if text[at] == b'\n' {
            return at + 1;
        }
    }
    from
}

// How many line ends stand between two places.
fn count_ends(text: &[u8], from: usize, to: usize) -> usize
    requires { to ≤ length text.now }
{
    let mut n: usize = 0;
    for k in from..to {
        n += usize::from(text[k] == b'\n');
    }
    n
}

// A place, and how many line ends are still to be passed.
#[derive(Clone, Copy)]
struct Passed {
    at: usize,
    left: usize,
}

// Over blocks that have fewer line ends than are to be passed: a loop of a fixed length compiles to no branch.
fn pass_blocks(text: &[u8], from: usize, count: usize) -> Passed
    requires { from ≤ length text.now }
    ensures { (from ≤ result.at) × (result.at ≤ length text.now) }
{
    let mut left = count;
    let mut at = from;
    while at + 64 <= text.len() {
        let n = count_ends(text, at, at + 64);
        if left <= n {
            return Passed { at, left };
        }
        left -= n;
        at += 64;
    }
    Passed { at, left }
}

// Behind so many line ends from a place on, or that place where there are fewer.
fn past_ends(text: &[u8], from: usize, count: usize) -> usize
    requires { from ≤ length text.now }
    ensures { (from ≤ result) × (result ≤ length text.now) × Ended text.now from result }
{
    let Passed { at, mut left } = pass_blocks(text, from, count);
    for end in at..text.len() {
        if text[end] == b'\n' {
            if left <= 1 {
                return end + 1;
            }
            left -= 1;
        }
    }
    from
}

// A text is accepted and reads as the first n cells of a buffer.
fn is_front(format: Format, text: &[u8], cells: &[u32], n: usize) -> bool
    ensures { result ≡ true → reads_in format text.now (take n cells.now) ≡ true }
{
    if cells.len() < n {
        return false;
    }
    codec::reads_as(format, text, &cells[..n])
}

// Both are accepted and read as the same cells, by way of a buffer.
fn same_block(format: Format, first: &[u8], second: &[u8], cells: &mut [u32]) -> bool
    ensures { result ≡ true → ReadAlike format first.now second.now }
{
    let found = codec::read(format, first, &mut *cells);
    match found {
        Ok(n) => is_front(format, second, &*cells, n),
        Err(_) => false,
    }
}

// The same of texts of any length, block by block.
fn same_blocks(format: Format, first: &[u8], second: &[u8]) -> bool
    requires { Cut format }
    ensures { result ≡ true → ReadAlike format first.now second.now }
{
    let mut cells = [0u32; 2048];
    let mut a: usize = 0;
    let mut b: usize = 0;
    while MOST < first.len() - a {
        let c = last_end(first, a, a + MOST);
        let d = past_ends(second, b, count_ends(first, a, c));
        if c == a || d == b {
            return false;
        }
        if !same_block(format, &first[a..c], &second[b..d], &mut cells) {
            return false;
        }
        a = c;
        b = d;
    }
    same_block(format, &first[a..], &second[b..], &mut cells)
}

// Names have one spelling each: those that read alike are equal byte for byte.
pub fn read_alike(format: Format, first: &[u8], second: &[u8]) -> bool
    ensures { result ≡ true → ReadAlike format first.now second.now }
{
    match format {
        Format::Utf7 => same_blocks(Format::Utf7, first, second),
        Format::Jp2 => same_blocks(Format::Jp2, first, second),
        Format::Mailbox => false,
    }
}
