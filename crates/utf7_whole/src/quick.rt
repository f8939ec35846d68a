// Whole texts, a stretch or a run at a time: the loops of this file go over what texts are made of, and stop at
// anything else and 37 bytes before the end. A text is lent with zeros behind it, which are no byte of any set, so that
// they reach its end. The loop that goes byte by byte, which names every fault, reads on from there. Loops have a fixed
// length and tests of bytes are eager, so that they compile to no branch; a block is written whole, and what lies
// behind its cells is written over by the next ones.
ghost use Rattle.std.specs.Prelude.{◌≡◌, true, false, MatchOption, cond, ◌&&◌, List, ℕ, ◌<◌, ◌≤◌, ◌+◌, ◌-◌, ◌*◌, ◌/◌, ◌%◌, length, get_or, take, drop, leb, ltb, eqb};
ghost use Rattle.std.proofs.Math.Seq.{slice};
ghost use Rattle.answer.specs.Inner.{Laid};
ghost use Rattle.alphabet.specs.Letters.{value_of, set_b, slash};
ghost use Rattle.reading.specs.Inner.{Left};
ghost use Rattle.reading.specs.Matching.{same_cells, reads_as};
ghost use Rattle.utf7.specs.Sets.{direct};
ghost use Rattle.utf7.specs.Rule.{outside, utf7};
ghost use Rattle.utf7_whole.specs.Quick.{Padded, Filled, Span, Ahead, Letters, Run, Values, One, Went};
ghost use Rattle.utf7_whole.specs.Quick.{Last, Agrees, three_of, units_of, lows, closes, stops, past};
ghost use Rattle.utf7_whole.specs.Quick.{Marked, Fills};

// Where a loop stopped: outside a run, after n cells.
#[derive(Clone, Copy)]
pub struct Reached {
    pub at: usize,
    pub n: usize,
}

// A place in a block, or its end where the byte is of the set.
pub fn noted(holds: bool, k: u8) -> u8
    ensures { result ≡ cond holds 32 k }
{
    if holds {
        return 32;
    }
    k
}

pub fn least(a: u8, b: u8) -> u8
    ensures { result ≡ cond (ltb b a) b a }
{
    if b < a {
        return b;
    }
    a
}

// How many of the next 32 bytes stand for themselves before one that does not.
fn direct_ahead(text: &[u8], at: usize) -> usize
    requires { at + 32 ≤ length text.now }
    ensures { (result ≤ 32) × Span direct text.now at (at + result) }
{
    let mut m: u8 = 32;
    for k in 0..32 {
        m = least(m, noted(utf7::is_direct_byte(text[at + k]), k as u8));
    }
    m as usize
}

// The value of a byte from one letter to another, of which the first has a value; else what it was before.
fn counted(v: u8, from: u8, to: u8, first: u8, b: u8) -> u8
    requires { to + first ≤ from + 255 }
    ensures { result ≡ cond (leb from b && leb b to) (b - from + first) v }
{
    if from <= b && b <= to {
        return b - from + first;
    }
    v
}

// The same of one sign.
fn chosen(v: u8, sign: u8, x: u8, b: u8) -> u8
    ensures { result ≡ cond (eqb b sign) x v }
{
    if b == sign {
        return x;
    }
    v
}

// The value of a letter, or 64 for a byte that is none, by the rule: capitals, small letters, digits, two signs. The
// alphabet is given by its last letter.
fn value(last: u8, b: u8) -> u8
    ensures { result ≡ value_of last b }
{
    let other = chosen(64, last, 63, b);
    let sign = chosen(other, b'+', 62, b);
    let digit = counted(sign, b'0', b'9', 52, b);
    let small = counted(digit, b'a', b'z', 26, b);
    counted(small, b'A', b'Z', 0, b)
}

// The values of 32 bytes as letters, 64 for one that is none.
fn values(last: u8, text: &[u8], at: usize) -> [u8; 32]
    requires { at + 32 ≤ length text.now }
    ensures { Values last text.now at result }
{
    let mut x = [0u8; 32];
    for k in 0..32 {
        x[k] = value(last, text[at + k]);
    }
    x
}

// How many letters stand before the first byte that is none.
fn letters_in(x: [u8; 32]) -> usize
    ensures { Ahead (λ k. ltb (get_or x k 0) 64) 32 result }
{
    let mut m: u8 = 32;
    for k in 0..32 {
        m = least(m, noted(x[k] < 64, k as u8));
    }
    m as usize
}

// Three values of letters that may end a run, and '-'.
fn is_one(a: u8, b: u8, c: u8, over: u8) -> bool
    ensures { result ≡ true → (a < 64) × (b < 64) × (c < 64) × (over ≡ 45) × (c % 4 ≡ 0) }
{
    (a < 64) & (b < 64) & (c < 64) & (over == b'-') & (c % 4 == 0)
}

fn wide(x: u8) -> u32
    ensures { result ≡ x }
{
    x as u32
}

// A letter's value. A byte that is none, whose value is 64, gets another, so that no sum of the units wraps.
fn low(x: u8) -> u32
    ensures { result ≡ x % 64 }
{
    (x % 64) as u32
}

// The three units of eight letters: each from the values of those that hold its bits.
fn first(a: u32, b: u32, c: u32) -> u32
    requires { (a < 64) × (b < 64) × (c < 64) }
    ensures { result ≡ (a * 64 + b) * 16 + c / 4 }
{
    (a * 64 + b) * 16 + c / 4
}

fn second(c: u32, d: u32, e: u32, f: u32) -> u32
    requires { (d < 64) × (e < 64) × (f < 64) }
    ensures { result ≡ ((c % 4 * 64 + d) * 64 + e) * 4 + f / 16 }
{
    ((c % 4 * 64 + d) * 64 + e) * 4 + f / 16
}

fn third(f: u32, g: u32, h: u32) -> u32
    requires { (g < 64) × (h < 64) }
    ensures { result ≡ (f % 16 * 64 + g) * 64 + h }
{
    (f % 16 * 64 + g) * 64 + h
}

// The unit of a run of three letters and '-', or 65,536 where there is none. A run of one unit that another byte ends
// is read as longer runs are: so the next place is a number of bytes further on that is known, and no load is waited
// for.
pub fn one_at(last: u8, text: &[u8], from: usize) -> u32
    requires { from + 4 ≤ length text.now }
    ensures { result < 65536 → One last text.now from result }
{
    let a = value(last, text[from]);
    let b = value(last, text[from + 1]);
    let c = value(last, text[from + 2]);
    if is_one(a, b, c, text[from + 3]) {
        return first(wide(a), wide(b), wide(c));
    }
    65536
}

// The same, from the sign on.
fn sign_at(text: &[u8], at: usize) -> u32
    requires { at + 5 ≤ length text.now }
    ensures { result < 65536 → (get_or text.now at 0 ≡ 43) × One slash text.now (at + 1) result }
{
    if text[at] != b'+' {
        return 65536;
    }
    one_at(b'/', text, at + 1)
}

// The units of eight values go to the output from n on, those of the letters among them first.
fn put_three(x: [u8; 32], j: usize, out: &mut [u32], n: usize)
    requires { (j + 8 ≤ 32) × (n + 3 ≤ length out.old) }
    ensures { Laid (three_of (λ k. lows x (j + k))) n out.old out.new }
{
    let c = low(x[j + 2]);
    let f = low(x[j + 5]);
    out[n] = first(low(x[j]), low(x[j + 1]), c);
    out[n + 1] = second(c, low(x[j + 3]), low(x[j + 4]), f);
    out[n + 2] = third(f, low(x[j + 6]), low(x[j + 7]));
}

fn put_twelve(x: [u8; 32], out: &mut [u32], n: usize)
    requires { n + 12 ≤ length out.old }
    ensures { Laid (units_of 4 (lows x)) n out.old out.new }
{
    put_three(x, 0, out, n);
    put_three(x, 8, out, n + 3);
    put_three(x, 16, out, n + 6);
    put_three(x, 24, out, n + 9);
}

// A run may end behind c letters that follow eights.
fn may_end(x: [u8; 32], c: usize) -> bool
    requires { c ≤ 32 }
    ensures { result ≡ stops x c }
{
    let more = c % 8;
    if more == 0 {
        return true;
    }
    if more == 3 {
        return x[c - 1] % 4 == 0;
    }
    if more == 6 {
        return x[c - 1] % 16 == 0;
    }
    false
}

// How many units so many letters hold.
fn units(letters: usize) -> usize
    ensures { result ≡ letters * 6 / 16 }
{
    letters / 8 * 3 + letters % 8 * 3 / 8
}

// The place behind a run: "- is then absorbed".
fn past_run(text: &[u8], to: usize) -> usize
    ensures { result ≡ past text.now to }
{
    if text.len() <= to {
        return to;
    }
    if text[to] == b'-' {
        return to + 1;
    }
    to
}

// The values of 32 bytes, of which some may stand behind the text's end: 64 for those.
fn values_near(last: u8, text: &[u8], at: usize) -> [u8; 32]
    requires { (0 < last) × (at ≤ length text.now) }
    ensures { Values last text.now at result }
{
    let mut x = [64u8; 32];
    for k in 0..32 {
        if text.len() <= at + k {
            return x;
        }
        x[k] = value(last, text[at + k]);
    }
    x
}

// The same, by themselves.
fn twelve(x: [u8; 32]) -> [u32; 12]
    ensures { result ≡ units_of 4 (lows x) }
{
    let mut y = [0u32; 12];
    put_three(x, 0, &mut y, 0);
    put_three(x, 8, &mut y, 3);
    put_three(x, 16, &mut y, 6);
    put_three(x, 24, &mut y, 9);
    y
}

// The first u of twelve units go to the output from n on.
fn lay(y: [u32; 12], u: usize, out: &mut [u32], n: usize)
    requires { (length y ≡ 12) × (u ≤ 12) × (n + u ≤ length out.old) }
    ensures { Laid (take u y) n out.old out.new }
{
    for k in 0..u {
        out[n + k] = y[k];
    }
}

// The units of the last letters of a run, which follow eights, go to the output from n on: where they end, and the
// place behind their units. Where they are 32 or more, may not end so or have no room: the place where the run began.
fn put_last(last: u8, text: &[u8], from: usize, at: usize, out: &mut [u32], n: usize) -> Reached
    requires { (0 < last) × (at ≤ length text.now) × (n ≤ length out.old) }
    ensures { Last last text.now from at n out.old out.new result.at result.n }
{
    let end = letters_end(last, text, at);
    let c = end - at;
    if 31 < c {
        return Reached { at: from, n };
    }
    let u = units(c);
    if out.len() < n + u {
        return Reached { at: from, n };
    }
    let x = values_near(last, text, at);
    if may_end(x, c) {
        lay(twelve(x), u, out, n);
        return Reached { at: end, n: n + u };
    }
    Reached { at: from, n }
}

// The units of a run go to the output from its start on: where its letters end, and the place behind its units. Where
// the run may not end so, or the output has no room: the place where it began.
pub fn put_run(last: u8, text: &[u8], from: usize, out: &mut [u32], start: usize) -> Reached
    requires { (0 < last) × (from ≤ length text.now) × (start ≤ length out.old) }
    ensures { Went last text.now from start out.old out.new result.at result.n }
{
    let mut at = from;
    let mut n = start;
    while at + 32 <= text.len() {
        if out.len() < n + 12 {
            return put_last(last, text, from, at, out, n);
        }
        let x = values(last, text, at);
        let c = letters_in(x);
        put_twelve(x, out, n);
        if c < 32 {
            if may_end(x, c) {
                return Reached {
                    at: at + c,
                    n: n + units(c),
                };
            }
            return Reached { at: from, n };
        }
        at += 32;
        n += 12;
    }
    put_last(last, text, from, at, out, n)
}

// All are read before one is stored.
pub fn cells_ahead(text: &[u8], at: usize) -> [u32; 16]
    requires { at + 16 ≤ length text.now }
    ensures { result ≡ slice at (at + 16) text.now }
{
    let mut x = [0u32; 16];
    for k in 0..16 {
        x[k] = wide(text[at + k]);
    }
    x
}

pub fn put_cells(x: [u32; 16], out: &mut [u32], n: usize)
    requires { (length x ≡ 16) × (n + 16 ≤ length out.old) }
    ensures { Laid x n out.old out.new }
{
    for k in 0..16 {
        out[n + k] = x[k];
    }
}

// Bytes go to the output from n on, of which k count.
fn widen(text: &[u8], at: usize, k: usize, out: &mut [u32], n: usize)
    requires { (k ≤ 32) × (at + 32 ≤ length text.now) × (n + 32 ≤ length out.old) }
    ensures { Laid (slice at (at + k) text.now) n out.old out.new }
{
    put_cells(cells_ahead(text, at), out, n);
    if 16 < k {
        put_cells(cells_ahead(text, at + 16), out, n + 16);
    }
}

// Marks of the bytes from a place on that stand for themselves.
fn mark(text: &[u8], from: usize) -> [u8; 144]
    requires { from + 144 ≤ length text.now }
    ensures { Marked text.now from result }
{
    let mut x = [0u8; 144];
    for k in 0..144 {
        x[k] = marks::marked(utf7::is_direct_byte(text[from + k]));
    }
    x
}

// Goes on over stretches and runs of one unit, as long as nothing else comes. Marks are made of 128 bytes at a time:
// then a stretch costs a load and a count of bits, and no place waits for a block's tests.
fn put_shorts(text: &[u8], from: usize, out: &mut [u32], start: usize) -> Reached
    requires { (from ≤ length text.now) × (start ≤ length out.old) }
    ensures { Fills text.now from start out.old result.at result.n out.new }
{
    let mut at = from;
    let mut n = start;
    if text.len() < from + 148 {
        return Reached { at, n };
    }
    let marks = mark(text, from);
    while at < from + 128 {
        if out.len() < n + 17 {
            return Reached { at, n };
        }
        let k = marks::ahead(&marks, at - from);
        put_cells(cells_ahead(text, at), out, n);
        at += k;
        n += k;
        if k < 16 {
            let one = sign_at(text, at);
            if 65535 < one {
                return Reached { at, n };
            }
            out[n] = one;
            n += 1;
            at += 5;
        }
    }
    Reached { at, n }
}

// The cells of what begins at a sign go to the output; where that is none, or no run as they are, nothing does.
fn put_token(text: &[u8], at: usize, out: &mut [u32], n: usize) -> Reached
    requires { (at + 5 ≤ length text.now) × (n < length out.old) }
    ensures { Fills text.now at n out.old result.at result.n out.new }
{
    if text[at] != b'+' {
        return Reached { at, n };
    }
    let from = at + 1;
    let one = one_at(b'/', text, from);
    if one < 65536 {
        out[n] = one;
        return put_shorts(text, at + 5, out, n + 1);
    }
    if text[from] == b'-' {
        out[n] = 43;
        return Reached {
            at: at + 2,
            n: n + 1,
        };
    }
    let r = put_run(b'/', text, from, out, n);
    if r.at == from {
        return Reached { at, n };
    }
    Reached {
        at: past_run(text, r.at),
        n: r.n,
    }
}

// The cells of a text, lent with or without zeros behind it, go to the front of the output.
pub fn fill(text: &[u8], out: &mut [u32]) -> Reached
    ensures { (s : List ℕ) → Padded s text.now → Filled s result.at outside result.n out.new }
{
    let mut at: usize = 0;
    let mut n: usize = 0;
    while at + 37 <= text.len() {
        if out.len() < n + 33 {
            return Reached { at, n };
        }
        let k = direct_ahead(text, at);
        widen(text, at, k, out, n);
        if k == 32 {
            at += 32;
            n += 32;
        } else {
            let r = put_token(text, at + k, out, n + k);
            if r.at == at + k {
                return r;
            }
            at = r.at;
            n = r.n;
        }
    }
    Reached { at, n }
}

// The byte is a letter. Every test is made, as of a byte that stands for itself.
fn is_letter(b: u8) -> bool
    ensures { result ≡ set_b slash b }
{
    (b'A' <= b) & (b <= b'Z') | (b'a' <= b) & (b <= b'z') | (b'/' <= b) & (b <= b'9') | (b == b'+')
}

// How many of the next 32 bytes are letters before one that is none.
fn letters_ahead(text: &[u8], at: usize) -> usize
    requires { at + 32 ≤ length text.now }
    ensures { Ahead (λ k. set_b slash (get_or text.now (at + k) 0)) 32 result }
{
    let mut m: u8 = 32;
    for k in 0..32 {
        m = least(m, noted(is_letter(text[at + k]), k as u8));
    }
    m as usize
}

// Where the letters from a place on end, among the last bytes.
fn letters_end(last: u8, text: &[u8], from: usize) -> usize
    requires { (0 < last) × (from ≤ length text.now) }
    ensures { Letters last text.now from result }
{
    for at in from..text.len() {
        if 64 <= value(last, text[at]) {
            return at;
        }
    }
    text.len()
}

// A run may end behind so many letters, of which this is the last.
fn may_close(letters: usize, last: u8) -> bool
    ensures { result ≡ closes letters (value_of slash last) }
{
    let v = value(b'/', last);
    let more = letters % 8;
    if more == 0 {
        return true;
    }
    if more == 3 {
        return v % 4 == 0;
    }
    if more == 6 {
        return v % 16 == 0;
    }
    false
}

// The end of a run's letters, or its start where it has none or may not end so.
fn judge_end(text: &[u8], from: usize, end: usize) -> usize
    requires { Letters slash text.now from end }
    ensures { (result ≡ from → ⊥) → Run slash text.now from result }
{
    if end == from {
        return from;
    }
    if may_close(end - from, text[end - 1]) {
        return end;
    }
    from
}

fn judge_run(text: &[u8], from: usize) -> usize
    requires { from ≤ length text.now }
    ensures { (result ≡ from → ⊥) → Run slash text.now from result }
{
    let mut at = from;
    while at + 32 <= text.len() {
        let c = letters_ahead(text, at);
        if c < 32 {
            return judge_end(text, from, at + c);
        }
        at += 32;
    }
    judge_end(text, from, letters_end(b'/', text, at))
}

// The same, with nothing written.
fn judge_shorts(text: &[u8], from: usize, start: usize) -> Reached
    requires { Left utf7 text.now from outside start }
    ensures { Left utf7 text.now result.at outside result.n × (from ≤ result.at) }
{
    let mut at = from;
    let mut n = start;
    if text.len() < from + 148 {
        return Reached { at, n };
    }
    let marks = mark(text, from);
    while at < from + 128 {
        let k = marks::ahead(&marks, at - from);
        at += k;
        n += k;
        if k < 16 {
            if 65535 < sign_at(text, at) {
                return Reached { at, n };
            }
            n += 1;
            at += 5;
        }
    }
    Reached { at, n }
}

fn judge_token(text: &[u8], at: usize, n: usize) -> Reached
    requires { (at + 5 ≤ length text.now) × Left utf7 text.now at outside n }
    ensures { Left utf7 text.now result.at outside result.n × (at ≤ result.at) }
{
    if text[at] != b'+' {
        return Reached { at, n };
    }
    let from = at + 1;
    if one_at(b'/', text, from) < 65536 {
        return judge_shorts(text, at + 5, n + 1);
    }
    if text[from] == b'-' {
        return Reached {
            at: at + 2,
            n: n + 1,
        };
    }
    let end = judge_run(text, from);
    if end == from {
        return Reached { at, n };
    }
    Reached {
        at: past_run(text, end),
        n: n + units(end - from),
    }
}

// How many cells a text has up to a place near its end, or before anything that is not of the usual kinds. Nothing is
// written.
pub fn judge(text: &[u8]) -> Reached
    ensures { Left utf7 text.now result.at outside result.n }
{
    let mut at: usize = 0;
    let mut n: usize = 0;
    while at + 37 <= text.len() {
        let k = direct_ahead(text, at);
        if k == 32 {
            at += 32;
            n += 32;
        } else {
            let r = judge_token(text, at + k, n + k);
            if r.at == at + k {
                return r;
            }
            at = r.at;
            n = r.n;
        }
    }
    Reached { at, n }
}

// The first n cells of a buffer are those of a list from a place on. Each is compared, so that it compiles to no
// branch.
pub fn is_same(cells: &[u32], n: usize, list: &[u32], from: usize) -> bool
    requires { (n ≤ length cells.now) × (from + n ≤ length list.now) }
    ensures { result ≡ same_cells (take n cells.now) (take n (drop from list.now)) }
{
    let mut same = true;
    for k in 0..n {
        same = same & (cells[k] == list[from + k]);
    }
    same
}

// Compares a text with cells, as many at a time as a buffer takes: how far they were the same, outside a run, or nothing.
pub fn compare(text: &[u8], cells: &[u32]) -> Option<Reached>
    ensures { MatchOption result (false ≡ reads_as utf7 text.now cells.now) (λ r. Agrees text.now cells.now r.at r.n) }
{
    let mut buffer = [0u32; 1088];
    let mut at: usize = 0;
    let mut n: usize = 0;
    while at < text.len() {
        let r = fill(&text[at..], &mut buffer);
        let to = r.at;
        let m = r.n;
        if to == 0 {
            return Some(Reached { at, n });
        }
        if cells.len() - n < m {
            return None;
        }
        if is_same(&buffer, m, cells, n) {
            at += to;
            n += m;
        } else {
            return None;
        }
    }
    Some(Reached { at, n })
}
