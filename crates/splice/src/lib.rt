// An edit of a buffer in place, each element moved at most once. The first elements of a buffer are in use.
#![tactic(auto)]

ghost use Rattle.std.specs.Prelude.{◌≡◌, ◌++◌, ◌+◌, ◌-◌, ◌≤◌, length, take, drop};
ghost use Rattle.std.proofs.Math.Seq.{paste};
ghost use Rattle.ledger.specs.Words.{pad};
ghost use Rattle.splice.specs.Splice.{spliced, cleared, fitting, used_after, spliced_in, shifted_left};

// Moves n elements to a place that is not after theirs. Where they are not all there, or the place is after theirs,
// nothing is changed.
#[tactic(auto, unfolding(crate::specs::Splice::shifted_left))]
pub fn shift_left(s: &mut [u32], from: usize, to: usize, n: usize)
    ensures { s.new ≡ shifted_left from to n s.old }
{
    if to <= from && from <= s.len() && n <= s.len() - from {
        s.copy_within(from..from + n, to);
    }
}

// Moves n elements. Where they stand there already, as for a step that puts as many cells as it takes, nothing is to be
// done: `copy_within` would copy them onto themselves, one by one.
fn move_part(s: &mut [u32], from: usize, to: usize, n: usize)
    requires { (from + n ≤ length s.old) × (to + n ≤ length s.old) }
    ensures { s.new ≡ paste s.old to (drop from s.old) n }
{
    if from != to {
        s.copy_within(from..from + n, to);
    }
}

// Puts cells at a place, over what stands there. A loop, since the archive for C asks for memcpy and memset alone, and
// `copy_from_slice` calls memmove here.
fn copy_at(s: &mut [u32], at: usize, cells: &[u32])
    requires { at + length cells.now ≤ length s.old }
    ensures { s.new ≡ paste s.old at cells.now (length cells.now) }
{
    for j in 0..cells.len() {
        s[at + j] = cells[j];
    }
}

// Sets the elements from a place up to another to 0.
fn clear_part(s: &mut [u32], at: usize, to: usize)
    requires { to ≤ length s.old }
    ensures { s.new ≡ cleared at to s.old }
{
    if at < to {
        s[at..to].fill(0);
    }
}

// Sets every element from a place on to 0.
pub fn clear_from(s: &mut [u32], at: usize)
    ensures { s.new ≡ pad (length s.old) (take at s.old) }
{
    let end = s.len();
    clear_part(&mut *s, at, end);
}

// Whether so many cells can be put for `count` at a place of the elements in use, in a buffer of this length.
#[tactic(auto, unfolding(crate::specs::Splice::fitting))]
fn is_fitting(used: usize, place: usize, count: usize, new: usize, room: usize) -> bool
    ensures { result ≡ fitting used place count new room }
{
    count <= used && place <= used - count && used <= room && new <= room - (used - count)
}

// The tail is moved once, the cells are copied in, and what was in use past the new end is cleared.
fn splice_fitting(
    buffer: &mut [u32],
    used: usize,
    place: usize,
    count: usize,
    cells: &[u32],
) -> usize
    requires { (place + count ≤ used) × (used ≤ length buffer.old) × (used - count + length cells.now ≤ length buffer.old) }
    ensures { (result ≡ used - count + length cells.now)
        × (buffer.new ≡ cleared result used (spliced place count cells.now (take used buffer.old) ++ drop result buffer.old)) }
{
    let from = place + count;
    let to = place + cells.len();
    let tail = used - from;
    move_part(&mut *buffer, from, to, tail);
    copy_at(&mut *buffer, place, cells);
    let end = to + tail;
    clear_part(&mut *buffer, end, used);
    end
}

// Puts cells for `count` of the elements in use, at a place, and gives how many are then in use. Cells that do not fit
// change nothing.
pub fn splice_in(
    buffer: &mut [u32],
    used: usize,
    place: usize,
    count: usize,
    cells: &[u32],
) -> usize
    ensures { (result ≡ used_after used place count (length cells.now) (length buffer.old))
        × (buffer.new ≡ spliced_in used place count cells.now buffer.old) }
{
    if !is_fitting(used, place, count, cells.len(), buffer.len()) {
        return used;
    }
    splice_fitting(&mut *buffer, used, place, count, cells)
}
