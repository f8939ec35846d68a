// Marks of bytes, 0 for those of a set: how many stand ahead, told by a count of a word's bits and not byte by byte.
#![tactic(auto)]

ghost use Rattle.std.specs.Prelude.{◌≡◌, cond, ℕ, ◌+◌, ◌≤◌, ◌<◌, length, get_or};
ghost use Rattle.marks.specs.Marks.{ahead_in, joined, leading};

// The mark of a byte.
pub fn marked(holds: bool) -> u8
    ensures { result ≡ cond holds 0 255 }
{
    if holds {
        return 0;
    }
    255
}

fn mark(x: &[u8], j: usize) -> u64
    requires { j < length x.now }
    ensures { (result ≡ get_or x.now j 0) × (result < 256) × ((k : ℕ) → get_or x.now k 0 < 256) }
{
    x[j] as u64
}

// Eight marks as a number: it compiles to one load.
fn word(x: &[u8], j: usize) -> u64
    requires { j + 8 ≤ length x.now }
    ensures value { result ≡ joined 8 (λ k. get_or x.now (j + k) 0) }
    ensures by_index { (k : ℕ) → get_or x.now k 0 < 256 }
{
    let low = mark(x, j)
        + mark(x, j + 1) * 256
        + mark(x, j + 2) * 65536
        + mark(x, j + 3) * 16777216;
    let high = mark(x, j + 4)
        + mark(x, j + 5) * 256
        + mark(x, j + 6) * 65536
        + mark(x, j + 7) * 16777216;
    low + high * 4294967296
}

// How many of eight marks are 0 before another.
fn eight(x: &[u8], j: usize) -> usize
    requires { j + 8 ≤ length x.now }
    ensures { result ≡ leading 8 (λ k. get_or x.now (j + k) 0) }
{
    (u64::trailing_zeros(word(x, j)) / 8) as usize
}

// How many of the next sixteen marks are 0 before another; none where so many do not stand there.
pub fn ahead(x: &[u8], j: usize) -> usize
    ensures { result ≡ ahead_in x.now j }
{
    if x.len() < 16 {
        return 0;
    }
    if x.len() - 16 < j {
        return 0;
    }
    let a = eight(x, j);
    let b = eight(x, j + 8);
    if a == 8 {
        return 8 + b;
    }
    a
}
