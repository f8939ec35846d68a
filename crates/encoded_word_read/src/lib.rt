// Reading subject lines: good words whole, and what else stands there a byte at a time, by the readers of UTF-7.
#![tactic(auto)]

ghost use Rattle.std.specs.Prelude.{◌≡◌, true, [], ◌++◌, ◌+◌, ◌-◌, ◌<◌, ◌≤◌, length, get_or, take, drop};
ghost use Rattle.answer.specs.Answer.{in_numbers};
ghost use Rattle.answer.specs.Output.{leaves, filled};
ghost use Rattle.reading.specs.Reading.{bad, closing, verdict_of, reading, read_into};
ghost use Rattle.reading.specs.Decoding.{does_by};
ghost use Rattle.reading.specs.Inner.{Left, Filling};
ghost use Rattle.utf7.specs.Rule.{outside, utf7};
ghost use Rattle.utf7.specs.Rule.{ends_in as utf7_ends_in};
ghost use Rattle.utf7_read.specs.Cursor.{shift_of, utf7_code};
ghost use Rattle.encoded_word.specs.Rule.{head, fed, at_equals, ended, due_does, text_does, part_does, ends_in, subject};
ghost use Rattle.encoded_word.specs.Rule.{text as in_text};
ghost use Rattle.encoded_word.specs.Writing.{word_end};
ghost use Rattle.encoded_word_read.specs.Words.{SpellsAt, Unspells, part_at, Strides, ReadsBy, Strode};
ghost use Rattle.encoded_word_read.specs.Line.{due_from, due, part_of, does_of};
ghost use Rattle.encoded_word_read.specs.declared.Part.TheVariants.{Half};

use answer::{Answer, Refusal, Refused};
use reading::Move;
use scan::Found;
use utf7_read::State;

// Where in a line a byte stands.
#[derive(Clone, Copy)]
enum Part {
    Start,
    // before a word's text, behind so many of the bytes of CR, LF, space and `=?utf-7?Q?`
    Head(usize),
    // in a word's text, after so many characters
    Text(usize, State),
    // in an `=` pair, behind its `=` and behind its first digit
    Equals(usize, State),
    Half(usize, u8, State),
    // behind the `?` of a word's end, and behind the word
    Tail,
    Behind,
}

// What a byte does.
#[derive(Clone, Copy)]
enum Turn {
    // completes a cell
    Give(u32, Part),
    Go(Part),
    Bad(Refusal),
    // is the last of an `=` pair that the text's reader refuses, at its `=`
    Pair(Refusal),
}

fn due_at(k: usize) -> u8
    requires { k < 13 }
    ensures { result ≡ get_or due k 0 }
{
    let bytes = *b"\r\n =?utf-7?Q?";
    bytes[k]
}

// A byte before a word's text.
fn in_head(k: usize, b: u8) -> Turn
    ensures { does_of result ≡ part_does utf7 (head (due_from k)) b }
{
    if 12 < k {
        return Turn::Bad(Refusal::BadWord);
    }
    if b != due_at(k) {
        return Turn::Bad(Refusal::BadWord);
    }
    if k == 12 {
        return Turn::Go(Part::Text(0, State::Outside));
    }
    Turn::Go(Part::Head(k + 1))
}

// A byte of the text that one character spells.
fn of_char(n: usize, m: Move<State>) -> Turn
    ensures { does_of result ≡ fed n bad (does_by utf7_code m) }
{
    match m {
        Move::Give(v, st) => Turn::Give(v, Part::Text(n, st)),
        Move::Go(st) => Turn::Go(Part::Text(n, st)),
        Move::Bad(why) => Turn::Bad(why),
    }
}

// A byte of the text that an `=` pair spells.
fn of_pair(n: usize, m: Move<State>) -> Turn
    ensures { does_of result ≡ fed n at_equals (does_by utf7_code m) }
{
    match m {
        Move::Give(v, st) => Turn::Give(v, Part::Text(n, st)),
        Move::Go(st) => Turn::Go(Part::Text(n, st)),
        Move::Bad(why) => Turn::Pair(why),
    }
}

// The `?` that ends a word's text.
fn word_end(st: State) -> Turn
    ensures { does_of result ≡ ended (utf7_ends_in 0 (shift_of st)) }
{
    match utf7_read::ends_in(0, 0, st) {
        Ok(_) => Turn::Go(Part::Tail),
        Err(Refused(why, _)) => Turn::Bad(why),
    }
}

// A byte of a word's text.
fn in_text(n: usize, st: State, b: u8) -> Turn
    ensures { does_of result ≡ text_does utf7 n (shift_of st) b }
{
    if b == b'?' {
        if n == 0 {
            return Turn::Bad(Refusal::BadWord);
        }
        return word_end(st);
    }
    if b == b'=' {
        if 60 < n {
            return Turn::Bad(Refusal::BadWord);
        }
        return Turn::Go(Part::Equals(n + 3, st));
    }
    if 62 < n {
        return Turn::Bad(Refusal::BadWord);
    }
    if b == b'_' {
        return of_char(n + 1, utf7_read::byte_does(st, 32));
    }
    if encoded_word::is_itself(b) {
        return of_char(n + 1, utf7_read::byte_does(st, b));
    }
    Turn::Bad(Refusal::BadWord)
}

// The second digit of an `=` pair, behind one of value d.
fn in_pair(n: usize, d: u8, st: State, b: u8) -> Turn
    ensures { does_of result ≡ part_does utf7 (part_of (Half n d st)) b }
{
    let v = scan::digit_value(b);
    if 15 < v {
        return Turn::Bad(Refusal::BadWord);
    }
    of_pair(n, utf7_read::byte_does(st, d % 16 * 16 + v))
}

// A byte that must be this one.
fn must_be(x: u8, b: u8, next: Part) -> Turn
    ensures { does_of result ≡ due_does x b (part_of next) }
{
    if b == x {
        return Turn::Go(next);
    }
    Turn::Bad(Refusal::BadWord)
}

// What a byte does.
fn feed(p: Part, b: u8) -> Turn
    ensures { does_of result ≡ part_does utf7 (part_of p) b }
{
    match p {
        Part::Start => must_be(b'=', b, Part::Head(4)),
        Part::Head(k) => in_head(k, b),
        Part::Text(n, st) => in_text(n, st, b),
        Part::Equals(n, st) => {
            let d = scan::digit_value(b);
            if 15 < d {
                return Turn::Bad(Refusal::BadWord);
            }
            Turn::Go(Part::Half(n, d, st))
        }
        Part::Half(n, d, st) => in_pair(n, d, st, b),
        Part::Tail => must_be(b'=', b, Part::Behind),
        Part::Behind => must_be(b'\r', b, Part::Head(1)),
    }
}

// The answer of a line of some size that ends here, after some cells.
fn finish(size: usize, handed: usize, p: Part) -> Answer
    ensures { in_numbers result ≡ closing (ends_in size (part_of p)) handed }
{
    match p {
        Part::Start => Ok(handed),
        Part::Behind => Ok(handed),
        Part::Head(_) => Err(Refused(Refusal::BadWord, size)),
        Part::Text(_, _) => Err(Refused(Refusal::BadWord, size)),
        Part::Equals(_, _) => Err(Refused(Refusal::BadWord, size)),
        Part::Half(_, _, _) => Err(Refused(Refusal::BadWord, size)),
        Part::Tail => Err(Refused(Refusal::BadWord, size)),
    }
}

// The place of the `=` of a pair that ends before a place.
fn equals_before(at: usize) -> usize
    ensures { result ≡ at - 3 }
{
    if at < 3 {
        return 0;
    }
    at - 3
}

// The byte that a character or a pair spells, and its length; none has the length 0.
#[derive(Clone, Copy)]
struct Character {
    byte: u8,
    size: usize,
}

// How many bytes or cells were found, and the place behind what they were read from.
#[derive(Clone, Copy)]
struct Reached {
    count: usize,
    end: usize,
}

// The pair at a place where an `=` stands.
fn pair_at(line: &[u8], at: usize) -> Character
    requires { (at < length line.now) × (get_or line.now at 0 ≡ 61) }
    ensures { 0 < result.size → SpellsAt line.now at result.size result.byte }
{
    if line.len() - at < 3 {
        return Character { byte: 0, size: 0 };
    }
    let d = scan::digit_value(line[at + 1]);
    let e = scan::digit_value(line[at + 2]);
    if 15 < d {
        return Character { byte: 0, size: 0 };
    }
    if 15 < e {
        return Character { byte: 0, size: 0 };
    }
    Character {
        byte: d * 16 + e,
        size: 3,
    }
}

// What stands at a place of a word's text.
fn char_at(line: &[u8], at: usize) -> Character
    requires { at < length line.now }
    ensures { 0 < result.size → SpellsAt line.now at result.size result.byte }
{
    let b = line[at];
    if encoded_word::is_itself(b) {
        return Character { byte: b, size: 1 };
    }
    if b == b'_' {
        return Character { byte: 32, size: 1 };
    }
    if b == b'=' {
        return pair_at(line, at);
    }
    Character { byte: 0, size: 0 }
}

// The bytes that a word's text spells go to the front of a buffer: as many as stand there, of at most 63 characters.
fn unspell(line: &[u8], from: usize, bytes: &mut [u8]) -> Reached
    requires { (from ≤ length line.now) × (63 ≤ length bytes.old) }
    ensures { Unspells line.now from result.end bytes.new result.count }
{
    let mut at = from;
    let mut n: usize = 0;
    while at < line.len() {
        let c = char_at(line, at);
        let size = c.size;
        if size == 0 {
            return Reached { count: n, end: at };
        }
        if 63 < at - from + size {
            return Reached { count: n, end: at };
        }
        bytes[n] = c.byte;
        n += 1;
        at += size;
    }
    Reached { count: n, end: at }
}

// The bytes before a word's text stand at a place: behind the first word, CR, LF and a space before `=?utf-7?Q?`.
fn lead(line: &[u8], at: usize) -> Found
    requires { at ≤ length line.now }
    ensures { result.ok ≡ true → Strides line.now at (part_at at) result.at (in_text 0 outside) [] }
{
    if at == 0 {
        return scan::word(line, at, b"=?utf-7?Q?");
    }
    scan::word(line, at, b"\r\n =?utf-7?Q?")
}

// The end of a word stands at a place.
fn is_end(line: &[u8], at: usize) -> bool
    requires { at ≤ length line.now }
    ensures { result ≡ true → drop at line.now ≡ word_end ++ drop (at + 2) line.now }
{
    if line.len() - at < 2 {
        return false;
    }
    (line[at] == b'?') & (line[at + 1] == b'=')
}

// The bytes of the word at a place go to the front of a buffer; where none is found, the place behind it is its own.
fn word_at(line: &[u8], at: usize, bytes: &mut [u8]) -> Reached
    requires { (at ≤ length line.now) × (63 ≤ length bytes.old) }
    ensures { (result.count ≤ length bytes.new)
        × (at < result.end → ReadsBy line.now at result.end (take result.count bytes.new)) }
{
    let found = lead(line, at);
    if !found.ok {
        return Reached { count: 0, end: at };
    }
    let u = unspell(line, found.at, bytes);
    let count = u.count;
    let end = u.end;
    if count == 0 {
        return Reached { count: 0, end: at };
    }
    if is_end(line, end) {
        return Reached {
            count,
            end: end + 2,
        };
    }
    Reached { count: 0, end: at }
}

// The cells of the word at a place go to the front of an output, where the word is good and there is room for them.
fn word_cells(line: &[u8], at: usize, bytes: &mut [u8], out: &mut [u32]) -> Reached
    requires { (at ≤ length line.now) × (63 ≤ length bytes.old) }
    ensures { Strode line.now at out.old out.new result.count result.end }
{
    let w = word_at(line, at, &mut *bytes);
    let count = w.count;
    let end = w.end;
    if end <= at {
        return Reached { count: 0, end: at };
    }
    match utf7_whole::read(&bytes[..count], out) {
        Ok(n) => Reached { count: n, end },
        Err(_) => Reached { count: 0, end: at },
    }
}

// The good words that a line begins with are counted, by way of buffers for the bytes and cells of one.
fn count_through(line: &[u8], bytes: &mut [u8], cells: &mut [u32]) -> Reached
    requires { 63 ≤ length bytes.old }
    ensures { Left subject line.now result.end (part_at result.end) result.count }
{
    let mut at: usize = 0;
    let mut n: usize = 0;
    while at < line.len() {
        let w = word_cells(line, at, &mut *bytes, &mut *cells);
        let end = w.end;
        if end <= at {
            return Reached { count: n, end: at };
        }
        n += w.count;
        at = end;
    }
    Reached { count: n, end: at }
}

fn count_words(line: &[u8]) -> Reached
    ensures { Left subject line.now result.end (part_at result.end) result.count }
{
    let mut bytes = [0u8; 63];
    let mut cells = [0u32; 63];
    count_through(line, &mut bytes, &mut cells)
}

// The same, and their cells go to the front of the output.
fn fill_through(line: &[u8], bytes: &mut [u8], out: &mut [u32]) -> Reached
    requires { (63 ≤ length bytes.old) × (length (reading subject line.now).cells ≤ length out.old) }
    ensures { Filling subject line.now result.end (part_at result.end) result.count
        out.old out.new }
{
    let mut at: usize = 0;
    let mut n: usize = 0;
    while at < line.len() {
        let w = word_cells(line, at, &mut *bytes, &mut out[n..]);
        let end = w.end;
        if end <= at {
            return Reached { count: n, end: at };
        }
        n += w.count;
        at = end;
    }
    Reached { count: n, end: at }
}

fn fill_words(line: &[u8], out: &mut [u32]) -> Reached
    requires { length (reading subject line.now).cells ≤ length out.old }
    ensures { Filling subject line.now result.end (part_at result.end) result.count
        out.old out.new }
{
    let mut bytes = [0u8; 63];
    fill_through(line, &mut bytes, out)
}

// Where a byte stands behind good words, or before any.
fn part_at(at: usize) -> Part
    ensures { part_of result ≡ part_at at }
{
    if at == 0 {
        return Part::Start;
    }
    Part::Behind
}

// The answer of reading a line with room enough: good words whole, and what else stands there a byte at a time.
fn count(line: &[u8]) -> Answer
    ensures { in_numbers result ≡ verdict_of (reading subject line.now) }
{
    let w = count_words(line);
    let mut at: usize = w.end;
    let mut n: usize = w.count;
    let mut p = part_at(at);
    while at < line.len() {
        match feed(p, line[at]) {
            Turn::Give(_, next) => {
                p = next;
                n += 1;
                at += 1;
            }
            Turn::Go(next) => {
                p = next;
                at += 1;
            }
            Turn::Bad(why) => {
                return Err(Refused(why, at));
            }
            Turn::Pair(why) => {
                return Err(Refused(why, equals_before(at + 1)));
            }
        }
    }
    finish(at, n, p)
}

// The cells of a line go to the front of the output.
fn fill(line: &[u8], out: &mut [u32])
    requires { length (reading subject line.now).cells ≤ length out.old }
    ensures { out.new ≡ filled (reading subject line.now).cells out.old }
{
    let w = fill_words(line, &mut *out);
    let mut at: usize = w.end;
    let mut n: usize = w.count;
    let mut p = part_at(at);
    while at < line.len() {
        match feed(p, line[at]) {
            Turn::Give(value, next) => {
                out[n] = value;
                p = next;
                n += 1;
                at += 1;
            }
            Turn::Go(next) => {
                p = next;
                at += 1;
            }
            Turn::Bad(_) => {
                return;
            }
            Turn::Pair(_) => {
                return;
            }
        }
    }
}

// Reads a line into an output. The whole line is judged before a cell is written.
pub fn read(line: &[u8], out: &mut [u32]) -> Answer
    ensures { leaves result out.new ≡ read_into subject line.now out.old }
{
    if answer::over_limit(line.len()) {
        return answer::too_long();
    }
    let found = count(line);
    match found {
        Err(_) => {
            return found;
        }
        Ok(n) => {
            if out.len() < n {
                return Err(Refused(Refusal::NoRoom, n));
            }
            fill(line, out);
            found
        }
    }
}
