// Whole texts, a token at a time: the loops of this file go over what accepted texts are made of, and stop at anything
// else. The loops that go byte by byte, which name every fault, read on from there.
ghost use Rattle.std.specs.Prelude.{◌≡◌, true, cond, ◌&&◌, ◌||◌, not, [], map, ◌<◌, ◌≤◌, ◌+◌, ◌-◌, ◌*◌, ◌%◌, length, get_or, take, drop, eqb, leb, ltb};
ghost use Rattle.answer.specs.Inner.{Laid};
ghost use Rattle.jp2.specs.Rule.{graphic, plain, state, cell_of, jp2};
ghost use Rattle.jp2.specs.Writable.{ascii};
ghost use Rattle.jp2_whole.specs.Quick.{Shift, Pair, Spanned, Plains, Stretch, Pairs};
ghost use Rattle.jp2_whole.specs.Quick.{Goes, Room, Stands, Puts, Same, Matches};
ghost use Rattle.jp2_whole.specs.Quick.{printing, Marked, Printed};

use jp2_read::escapes;

// Where a loop stopped: between cells, after n of them.
#[derive(Clone, Copy)]
pub struct Reached {
    pub at: usize,
    pub n: usize,
    pub g0: u16,
    pub g2: u16,
}

fn both(s: bool, t: bool) -> bool
    ensures { result ≡ (s && t) }
{
    if s {
        return t;
    }
    false
}

// A set of single bytes.
fn is_single(g0: u16) -> bool
    ensures { result ≡ (eqb g0 6 || eqb g0 14) }
{
    if g0 == 6 {
        return true;
    }
    g0 == 14
}

// A byte of a pair.
fn is_code(b: u8) -> bool
    ensures { result ≡ graphic b }
{
    jp2::is_graphic(b as u32)
}

// Two of them.
fn is_pair(text: &[u8], at: usize) -> bool
    requires { at < length text.now }
    ensures { result ≡ true → Pair text.now at }
{
    if text.len() < at + 2 {
        return false;
    }
    if is_code(text[at]) {
        return is_code(text[at + 1]);
    }
    false
}

// A byte that is a cell of the set in G2, after ESC N.
fn is_shifted(g2: u16, b: u8) -> bool
    ensures { result ≡ (not (eqb g2 0) && (leb 32 b && ltb b 128)) }
{
    if g2 == 0 {
        return false;
    }
    if b < 32 {
        return false;
    }
    b < 128
}

// ESC N and such a byte, where ESC stands.
fn is_shift(text: &[u8], at: usize, g2: u16) -> bool
    requires { at < length text.now }
    ensures { result ≡ true → Shift text.now at g2 }
{
    if text.len() < at + 3 {
        return false;
    }
    if text[at + 1] != 78 {
        return false;
    }
    is_shifted(g2, text[at + 2])
}

// A byte that is a cell wherever ASCII is in G0.
fn is_plain(b: u8) -> bool
    ensures { result ≡ ascii b }
{
    if 127 < b {
        return false;
    }
    if b / 2 == 7 {
        return false;
    }
    b != 27
}

// A printing byte of a set of single bytes, where no stretch is to be looked for yet.
fn is_lone(b: u8, at: usize, next: usize, g0: u16) -> bool
    ensures { result ≡ true → ((32 ≤ b) × (b < 128)) × ((eqb g0 6 || eqb g0 14) ≡ true) }
{
    if b < 32 {
        return false;
    }
    if 128 <= b {
        return false;
    }
    if next <= at {
        return false;
    }
    is_single(g0)
}

// G2 after a byte, by the one that follows.
fn cleared(text: &[u8], at: usize, g2: u16) -> u16
    requires { at < length text.now }
    ensures { result ≡ cond (eqb (get_or text.now at 0) 13 && eqb (get_or text.now (at + 1) 0) 10) 0 g2 }
{
    if text[at] != 13 {
        return g2;
    }
    if text.len() < at + 2 {
        return g2;
    }
    if text[at + 1] == 10 {
        return 0;
    }
    g2
}

// Sixteen such bytes.
fn is_block(text: &[u8], at: usize) -> bool
    requires { at + 16 ≤ length text.now }
    ensures { result ≡ true → Plains text.now at (at + 16) }
{
    let mut ok = true;
    for k in 0..16 {
        ok = both(ok, is_plain(text[at + k]));
    }
    ok
}

// The end of a stretch of blocks of such bytes before a place, with ASCII in G0 and nothing in G2.
fn stretch_end(text: &[u8], from: usize, to: usize, g0: u16, g2: u16) -> usize
    requires { (from ≤ to) × (to ≤ length text.now) }
    ensures { Stretch text.now from to g0 g2 result }
{
    let mut at = from;
    if g0 != 6 {
        return at;
    }
    if g2 != 0 {
        return at;
    }
    // by sixteens, up to the first block that is not so: the place is the answer
    while at + 16 <= to {
        if !is_block(text, at) {
            return at;
        }
        at += 16;
    }
    at
}

// Sixteen bytes of pairs.
fn is_code_block(text: &[u8], at: usize) -> bool
    requires { at + 16 ≤ length text.now }
    ensures { result ≡ true → Spanned graphic text.now at (at + 16) }
{
    let mut ok = true;
    for k in 0..16 {
        ok = both(ok, is_code(text[at + k]));
    }
    ok
}

// The end of a stretch of blocks of pairs.
fn pairs_end(text: &[u8], from: usize) -> usize
    requires { from ≤ length text.now }
    ensures { Pairs text.now from result }
{
    let mut at = from;
    // by sixteens, up to the first block that is not so: the place is the answer
    while at + 16 <= text.len() {
        if !is_code_block(text, at) {
            return at;
        }
        at += 16;
    }
    at
}

fn ascii_cell(b: u8) -> u32
    ensures { result ≡ cell_of 6 b }
{
    393216 + (b as u32)
}

// The cells of a stretch go to an output from n on.
fn widen(text: &[u8], from: usize, to: usize, out: &mut [u32], n: usize)
    requires from_le_to { (from ≤ to) × (to ≤ length text.now) }
    requires from_in_bounds { n + (to - from) ≤ length out.old }
    ensures { Laid (map (cell_of 6) (take (to - from) (drop from text.now))) n out.old out.new }
{
    for k in 0..to - from {
        out[n + k] = ascii_cell(text[from + k]);
    }
}

// A cell of a set of single bytes, of G2 and of a set of pairs.
fn single_cell(g0: u16, b: u8) -> u32
    ensures { result ≡ cell_of (cond (graphic b) g0 6) b }
{
    if jp2::is_graphic(b as u32) {
        return (g0 as u32) * 65536 + (b as u32);
    }
    393216 + (b as u32)
}

fn shifted_cell(g2: u16, b: u8) -> u32
    ensures { result ≡ cell_of g2 b }
{
    (g2 as u32) * 65536 + (b as u32)
}

fn pair_cell(g0: u16, a: u8, b: u8) -> u32
    ensures { result ≡ cell_of g0 (a * 256 + b) }
{
    (g0 as u32) * 65536 + ((a as u32) * 256 + (b as u32))
}

// As many bytes as there are places: a byte completes at most one cell.
fn reach(at: usize, size: usize, room: usize) -> usize
    requires { at ≤ size }
    ensures { (at ≤ result) × ((result ≤ size) × (result - at ≤ room)) }
{
    if size - at <= room {
        return size;
    }
    at + room
}

// The reader behind the designation that stands at ESC; where there is none it stays.
fn after_row(text: &[u8], from: Reached) -> Reached
    requires { (from.at < length text.now) × (get_or text.now from.at 0 ≡ 27) }
    ensures goes { Goes text.now from.at (state from.g0 from.g2 plain) result.at [] (state result.g0 result.g2 plain) }
    ensures n_value { result.n ≡ from.n }
{
    let d = escapes::row_at(text, from.at);
    if d == 0 {
        return from;
    }
    Reached {
        at: from.at + (d % 8) as usize,
        n: from.n,
        g0: escapes::g0_after(from.g0, d),
        g2: escapes::g2_after(from.g2, d),
    }
}

// Puts the cell of a byte of a set of single bytes, and those of a stretch behind it.
fn put_single(text: &[u8], from: Reached, to: usize, out: &mut [u32]) -> Reached
    requires room { Room text.now from.at from.n to out.old }
    requires g0_value { ((eqb from.g0 6 || eqb from.g0 14) ≡ true) × (ascii (get_or text.now from.at 0) ≡ true) }
    ensures puts { Puts text.now from out.old result out.new }
    ensures at_in_bounds { result.n + (to - result.at) ≤ length out.new }
{
    let at = from.at;
    let n = from.n;
    let g0 = from.g0;
    let g2 = cleared(text, at, from.g2);
    out[n] = single_cell(g0, text[at]);
    let end = stretch_end(text, at + 1, to, g0, g2);
    widen(text, at + 1, end, out, n + 1);
    Reached {
        at: end,
        n: n + 1 + (end - (at + 1)),
        g0,
        g2,
    }
}

// A printing byte. Every test is made, so that it compiles to no branch.
fn is_printing(b: u8) -> bool
    ensures { result ≡ printing b }
{
    (32 <= b) & (b < 128)
}

// Marks of the printing bytes from a place on.
fn mark(text: &[u8], from: usize) -> [u8; 144]
    requires { from + 144 ≤ length text.now }
    ensures { Marked text.now from result }
{
    let mut x = [0u8; 144];
    for k in 0..144 {
        x[k] = marks::marked(is_printing(text[from + k]));
    }
    x
}

// The cell of a printing byte in ASCII. Put so, the sum is not taken for a choice of bits, and sixteen of them are
// computed side by side.
fn printed(b: u8) -> u32
    ensures { result ≡ b % 128 + 393216 }
{
    ((b % 128 + 128) as u32) + 393088
}

// All are read before one is stored.
fn cells_ahead(text: &[u8], at: usize) -> [u32; 16]
    requires { at + 16 ≤ length text.now }
    ensures { Printed text.now at result }
{
    let mut x = [0u32; 16];
    for k in 0..16 {
        x[k] = printed(text[at + k]);
    }
    x
}

fn put_cells(x: [u32; 16], out: &mut [u32], n: usize)
    requires { (length x ≡ 16) × (n + 16 ≤ length out.old) }
    ensures { Laid x n out.old out.new }
{
    for k in 0..16 {
        out[n + k] = x[k];
    }
}

// Goes on over printing bytes and shifts, with ASCII in G0, as long as nothing else comes. Marks are made of 128 bytes
// at a time: then a stretch costs a load and a count of bits. A block is written whole, and what lies behind its cells
// is written over by the next ones.
fn put_shifts(text: &[u8], from: Reached, out: &mut [u32]) -> Reached
    requires { (from.at ≤ length text.now) × (from.n ≤ length out.old) × (from.g0 ≡ 6) }
    ensures { Puts text.now from out.old result out.new }
{
    let start = from.at;
    let g2 = from.g2;
    let mut at = start;
    let mut n = from.n;
    if text.len() < start + 144 {
        return from;
    }
    let marks = mark(text, start);
    // by a shift or by a stretch, two places at once
    while at < start + 128 {
        if out.len() < n + 16 {
            return Reached { at, n, g0: 6, g2 };
        }
        if text[at] == 27 {
            if !is_shift(text, at, g2) {
                return Reached { at, n, g0: 6, g2 };
            }
            out[n] = shifted_cell(g2, text[at + 2]);
            at += 3;
            n += 1;
        } else {
            let k = marks::ahead(&marks, at - start);
            if k == 0 {
                return Reached { at, n, g0: 6, g2 };
            }
            put_cells(cells_ahead(text, at), out, n);
            at += k;
            n += k;
        }
    }
    Reached { at, n, g0: 6, g2 }
}

// Puts the cell of a shift, and with ASCII in G0 what follows it.
fn put_shift(text: &[u8], from: Reached, out: &mut [u32]) -> Reached
    requires { Shift text.now from.at from.g2 × (get_or text.now from.at 0 ≡ 27) × (from.n < length out.old) }
    ensures { Puts text.now from out.old result out.new }
{
    let at = from.at;
    let n = from.n;
    let g0 = from.g0;
    let g2 = from.g2;
    out[n] = shifted_cell(g2, text[at + 2]);
    let next = Reached {
        at: at + 3,
        n: n + 1,
        g0,
        g2,
    };
    if g0 == 6 {
        return put_shifts(text, next, out);
    }
    next
}

// Puts the cells of a token; where there is none the reader stays.
fn put_token(text: &[u8], from: Reached, to: usize, out: &mut [u32]) -> Reached
    requires { Room text.now from.at from.n to out.old }
    ensures puts { Puts text.now from out.old result out.new }
    ensures at_in_bounds { result.n + (to - result.at) ≤ length out.new }
{
    let at = from.at;
    let n = from.n;
    let g0 = from.g0;
    let g2 = from.g2;
    let b = text[at];
    if b == 27 {
        if is_shift(text, at, g2) {
            return put_shift(text, from, out);
        }
        return after_row(text, from);
    }
    if is_single(g0) {
        if is_plain(b) {
            return put_single(text, from, to, out);
        }
        return from;
    }
    if is_pair(text, at) {
        out[n] = pair_cell(g0, b, text[at + 1]);
        return Reached {
            at: at + 2,
            n: n + 1,
            g0,
            g2,
        };
    }
    from
}

// Puts the cells of a text from a place on into an output, of no more bytes than it has room for. Behind a token, a
// stretch is looked for only after some bytes.
fn fill(text: &[u8], from: Reached, out: &mut [u32]) -> Reached
    requires { (from.at ≤ length text.now) × (from.n ≤ length out.old) }
    ensures { Puts text.now from out.old result out.new }
{
    let mut at = from.at;
    let mut n = from.n;
    let mut g0 = from.g0;
    let mut g2 = from.g2;
    let mut next = at;
    let to = reach(at, text.len(), out.len() - n);
    // by a byte or by a token, two places at once
    while at < to {
        let b = text[at];
        if is_lone(b, at, next, g0) {
            out[n] = single_cell(g0, b);
            n += 1;
            at += 1;
        } else {
            let r = put_token(text, Reached { at, n, g0, g2 }, to, out);
            if r.at <= at {
                return r;
            }
            at = r.at;
            n = r.n;
            g0 = r.g0;
            g2 = r.g2;
            next = at + 12;
        }
    }
    Reached { at, n, g0, g2 }
}

// The same, as long as it has room.
pub fn fill_on(text: &[u8], from: Reached, out: &mut [u32]) -> Reached
    requires { (from.at ≤ length text.now) × (from.n ≤ length out.old) }
    ensures { Puts text.now from out.old result out.new }
{
    let mut at = from.at;
    let mut n = from.n;
    let mut g0 = from.g0;
    let mut g2 = from.g2;
    // as far as each filling comes
    while at < text.len() {
        let r = fill(text, Reached { at, n, g0, g2 }, out);
        if r.at <= at {
            return r;
        }
        at = r.at;
        n = r.n;
        g0 = r.g0;
        g2 = r.g2;
    }
    Reached { at, n, g0, g2 }
}

// Counts the cell of a byte of a set of single bytes, and those of a stretch behind it.
fn judge_single(text: &[u8], from: Reached) -> Reached
    requires stands { Stands text.now from × (from.at < length text.now) }
    requires g0_value { ((eqb from.g0 6 || eqb from.g0 14) ≡ true) × (ascii (get_or text.now from.at 0) ≡ true) }
    ensures { Stands text.now result }
{
    let at = from.at;
    let g0 = from.g0;
    let g2 = cleared(text, at, from.g2);
    let end = stretch_end(text, at + 1, text.len(), g0, g2);
    Reached {
        at: end,
        n: from.n + 1 + (end - (at + 1)),
        g0,
        g2,
    }
}

// Counts the cells of a token; where there is none the reader stays.
fn judge_token(text: &[u8], from: Reached) -> Reached
    requires { Stands text.now from × (from.at < length text.now) }
    ensures { Stands text.now result }
{
    let at = from.at;
    let n = from.n;
    let g0 = from.g0;
    let g2 = from.g2;
    let b = text[at];
    if b == 27 {
        if is_shift(text, at, g2) {
            return Reached {
                at: at + 3,
                n: n + 1,
                g0,
                g2,
            };
        }
        return after_row(text, from);
    }
    if is_single(g0) {
        if is_plain(b) {
            return judge_single(text, from);
        }
        return from;
    }
    if !is_pair(text, at) {
        return from;
    }
    let end = pairs_end(text, at + 2);
    Reached {
        at: end,
        n: n + 1 + (end - (at + 2)) / 2,
        g0,
        g2,
    }
}

// Counts the cells of a text from a place on.
pub fn judge(text: &[u8], from: Reached) -> Reached
    requires { Stands text.now from }
    ensures { Stands text.now result }
{
    let mut at = from.at;
    let mut n = from.n;
    let mut g0 = from.g0;
    let mut g2 = from.g2;
    let mut next = at;
    // by a byte or by a token
    while at < text.len() {
        if is_lone(text[at], at, next, g0) {
            n += 1;
            at += 1;
        } else {
            let r = judge_token(text, Reached { at, n, g0, g2 });
            if r.at <= at {
                return r;
            }
            at = r.at;
            n = r.n;
            g0 = r.g0;
            g2 = r.g2;
            next = at + 12;
        }
    }
    Reached { at, n, g0, g2 }
}

// The first cells of a buffer are those of a list from a place on.
fn is_same(buf: &[u32], count: usize, cells: &[u32], from: usize) -> bool
    requires { (count ≤ length buf.now) × (from ≤ length cells.now) }
    ensures { result ≡ true → (count ≤ length cells.now - from) × Same buf.now cells.now from count }
{
    if cells.len() - from < count {
        return false;
    }
    for k in 0..count {
        if buf[k] != cells[from + k] {
            return false;
        }
    }
    true
}

// Goes on as long as a text reads as the cells, by way of a small buffer.
pub fn follow(text: &[u8], cells: &[u32]) -> Reached
    ensures { Matches text.now cells.now result.at result.g0 result.g2 result.n }
{
    let mut buf = [0u32; 1024];
    let mut at: usize = 0;
    let mut n: usize = 0;
    let mut g0: u16 = 6;
    let mut g2: u16 = 0;
    // as far as each filling comes
    while at < text.len() {
        let r = fill(text, Reached { at, n: 0, g0, g2 }, &mut buf);
        if r.at <= at {
            return Reached { at, n, g0, g2 };
        }
        if !is_same(&buf, r.n, cells, n) {
            return Reached { at, n, g0, g2 };
        }
        n += r.n;
        at = r.at;
        g0 = r.g0;
        g2 = r.g2;
    }
    Reached { at, n, g0, g2 }
}
