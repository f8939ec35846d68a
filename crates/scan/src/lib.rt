// Parts of a text, found as the parsers of the crate parsing find them: bytes that must stand there, decimal numbers,
// and lines of hex digits.
#![tactic(auto)]

ghost use Rattle.std.specs.Prelude.{◌≡◌, ◌+◌, ◌-◌, ◌*◌, ◌/◌, ◌<◌, ◌≤◌, ◌^◌, min, length, get_or, drop, leb};
ghost use mathlib.Core.Bool.{true, cond, ◌&&◌};
ghost use Rattle.answer.specs.Ahead.{Ahead};
ghost use Rattle.parsing.specs.Parsing.{literal};
ghost use Rattle.parsing.specs.Digits.{value_of, number, list};
ghost use Rattle.scan.specs.Found.{found_in, passed_in, numbers_in, Spans};
ghost use Rattle.scan.specs.Inner.{IsDigit};

// A value and the place behind it; or, where it is not found, the place of the first byte that cannot stand there.
#[derive(Clone, Copy)]
pub struct Found {
    pub ok: bool,
    pub value: usize,
    pub at: usize,
}

fn not_found(at: usize) -> Found
    ensures { result ≡ record { ok = mathlib.Core.Bool.false; value = 0; at = at } }
{
    Found {
        ok: false,
        value: 0,
        at,
    }
}

// These bytes.
pub fn word(s: &[u8], from: usize, bytes: &[u8]) -> Found
    ensures { passed_in s.now result ≡ literal bytes.now (drop from s.now) from }
{
    let mut at = from;
    for i in 0..bytes.len() {
        if s.len() <= at {
            return not_found(at);
        }
        if s[at] != bytes[i] {
            return not_found(at);
        }
        at += 1;
    }
    Found {
        ok: true,
        value: 0,
        at,
    }
}

// The value of a byte from one digit to another, of which the first has a value; else what it was before.
fn counted(v: u8, from: u8, to: u8, first: u8, b: u8) -> u8
    requires { to + first ≤ from + 255 }
    ensures { result ≡ cond (leb from b && leb b to) (b - from + first) v }
{
    if from <= b && b <= to {
        b - from + first
    } else {
        v
    }
}

// A byte's value as a digit, 16 where it is none.
pub fn digit_value(b: u8) -> u8
    ensures { result ≡ value_of b }
{
    let decimal = counted(16, b'0', b'9', 0, b);
    counted(decimal, b'A', b'F', 10, b)
}

fn digit_at(s: &[u8], at: usize) -> usize
    requires { at < length s.now }
    ensures { (result ≡ value_of (get_or s.now at 0)) × (result ≤ 255) }
{
    digit_value(s[at]) as usize
}

// How many digits a number has, and the most that it may be.
fn width_of(long: bool) -> usize
    ensures { result ≡ cond long 7 5 }
{
    if long { 7 } else { 5 }
}

fn most_of(long: bool) -> usize
    ensures { result ≡ cond long 1048576 65536 }
{
    if long { 1048576 } else { 65536 }
}

// A number of five decimal digits, at most 65,536; a long one of seven, at most 1,048,576.
pub fn decimal(s: &[u8], from: usize, long: bool) -> Found
    ensures { found_in s.now result
        ≡ number 10 (cond long 7 5) (cond long 1048576 65536) (drop from s.now) from }
{
    let most = most_of(long);
    let mut at = from;
    let mut v: usize = 0;
    for k in (0..width_of(long)).rev() {
        if s.len() <= at {
            return not_found(at);
        }
        let d = digit_at(s, at);
        if 9 < d {
            return not_found(at);
        }
        let next = v * 10 + d;
        if most < next * 10usize.pow(k as u32) {
            return not_found(at);
        }
        v = next;
        at += 1;
    }
    Found {
        ok: true,
        value: v,
        at,
    }
}

// Whether the next 32 bytes are hex digits. The loop has a fixed count and no branch, so the machine takes it several
// bytes at a time.
fn all_digits(s: &[u8], at: usize) -> bool
    requires { at + 32 ≤ length s.now }
    ensures { result ≡ true → Ahead IsDigit s.now at 32 }
{
    let mut all = true;
    for k in 0..32 {
        all = all & (digit_value(s[at + k]) < 16);
    }
    all
}

// Past blocks that are all hex digits, up to a place.
fn past_digits(s: &[u8], from: usize, to: usize) -> usize
    requires { (from ≤ to) × (to ≤ length s.now) }
    ensures { (from ≤ result) × (result ≤ to) × Ahead IsDigit s.now from (result - from) }
{
    let mut at = from;
    // by blocks of 32, up to the first that is not so: the place is the answer
    while 32 <= to - at {
        if !all_digits(s, at) {
            return at;
        }
        at += 32;
    }
    at
}

// Where the hex digits from a place on end, at most at another.
fn digits_end(s: &[u8], from: usize, to: usize) -> usize
    requires { (from ≤ to) × (to ≤ length s.now) }
    ensures { (from ≤ result) × (result ≤ to) × Ahead IsDigit s.now from (result - from)
        × (result < to → 16 ≤ value_of (get_or s.now result 0)) }
{
    for at in past_digits(s, from, to)..to {
        if 16 <= digit_at(s, at) {
            return at;
        }
    }
    to
}

// The place that n groups of k bytes lead to, or the end of the text if that comes first.
fn up_to(end: usize, from: usize, n: usize, k: usize) -> usize
    requires { (from ≤ end) × (0 < k) }
    ensures { (from ≤ result) × (result ≤ end) × (result ≤ from + n * k) × (result < end → result ≡ from + n * k) }
{
    if n <= (end - from) / k {
        return from + n * k;
    }
    end
}

// To the end of the line, at least and at most so many numbers of k hex digits: how many there are.
fn line_of(s: &[u8], from: usize, k: usize, least: usize, most: usize) -> Found
    requires { (0 < k) × (least ≤ most) }
    ensures { (numbers_in k from s.now result ≡ list k least most (drop from s.now) from)
        × Spans k least most from s.now result }
{
    if s.len() < from {
        return not_found(from);
    }
    let to = up_to(s.len(), from, most, k);
    let end = digits_end(s, from, to);
    if s.len() <= end {
        return not_found(end);
    }
    if s[end] != b'\n' {
        return not_found(end);
    }
    let size = end - from;
    if size % k != 0 {
        return not_found(end);
    }
    let n = size / k;
    if n < least {
        return not_found(end);
    }
    Found {
        ok: true,
        value: n,
        at: end + 1,
    }
}

// A line of bytes, at least and at most so many.
pub fn bytes_line(s: &[u8], from: usize, least: usize, most: usize) -> Found
    ensures { (numbers_in 2 from s.now result ≡ list 2 least most (drop from s.now) from)
        × Spans 2 0 most from s.now result }
{
    line_of(s, from, 2, least.min(most), most)
}

// A line of so many words.
pub fn words_line(s: &[u8], from: usize, n: usize) -> Found
    ensures { (numbers_in 8 from s.now result ≡ list 8 n n (drop from s.now) from)
        × Spans 8 n n from s.now result }
{
    line_of(s, from, 8, n, n)
}
