// What a desk is told: a line's command, and the numbers that follow a replace or a squeeze. And the kinds of texts by
// their names.
#![tactic(auto)]

pub mod numbers;

ghost use Rattle.std.specs.Prelude.{◌≡◌, ◌+◌, ◌≤◌, length, drop};
ghost use Rattle.commands.specs.Lines.{blank, stretch, same, verb_of, said_in, kind_named, page_named, format_named};

use codec::{Format, Kind};

#[derive(Clone, Copy)]
pub enum Verb {
    Nothing,
    Show,
    Replace,
    Undo,
    Redo,
    Save,
    Quit,
    Squeeze,
    Keep,
    Unknown,
}

// A line's command, and where what follows its name begins.
#[derive(Clone, Copy)]
pub struct Said {
    pub verb: Verb,
    pub rest: usize,
}

pub fn is_blank(b: u8) -> bool
    ensures { result ≡ blank b }
{
    matches!(b, b' ' | b'\t' | b'\r' | b'\n')
}

// Where the blanks that begin at a place end, or the bytes that are none.
fn past(line: &[u8], from: usize, blanks: bool) -> usize
    requires { from ≤ length line.now }
    ensures { result ≡ from + stretch blanks (drop from line.now) }
{
    for at in from..line.len() {
        if is_blank(line[at]) != blanks {
            return at;
        }
    }
    line.len()
}

// A word is a name, each byte of it.
fn is_word(word: &[u8], name: &[u8]) -> bool
    ensures { result ≡ same word.now name.now }
{
    word == name
}

#[tactic(auto, unfolding(crate::specs::Lines::verb_of))]
fn verb_of(word: &[u8]) -> Verb
    ensures { result ≡ verb_of word.now }
{
    match word {
        _ if is_word(word, b"") => Verb::Nothing,
        _ if is_word(word, b"show") => Verb::Show,
        _ if is_word(word, b"replace") => Verb::Replace,
        _ if is_word(word, b"undo") => Verb::Undo,
        _ if is_word(word, b"redo") => Verb::Redo,
        _ if is_word(word, b"save") => Verb::Save,
        _ if is_word(word, b"quit") => Verb::Quit,
        _ if is_word(word, b"squeeze") => Verb::Squeeze,
        _ if is_word(word, b"keep") => Verb::Keep,
        _ => Verb::Unknown,
    }
}

// The command of a line.
pub fn parse(line: &[u8]) -> Said
    ensures { result ≡ said_in line.now }
{
    let from = past(line, 0, true);
    let to = past(line, from, false);
    let rest = past(line, to, true);
    let verb = verb_of(&line[from..to]);
    Said { verb, rest }
}

// The kind of a page by its name.
#[tactic(auto, unfolding(crate::specs::Lines::kind_named))]
pub fn kind_named(word: &[u8]) -> Option<Kind>
    ensures { result ≡ kind_named word.now }
{
    match word {
        _ if is_word(word, b"utf7h") => Some(Kind::Utf7Header),
        _ if is_word(word, b"utf7b") => Some(Kind::Utf7Body),
        _ if is_word(word, b"jp2") => Some(Kind::Jp2),
        _ => None,
    }
}

// Whether a word stands for a page that was kept, in a kind's place.
pub fn is_page(word: &[u8]) -> bool
    ensures { result ≡ page_named word.now }
{
    is_word(word, b"page")
}

// The format of a text by its name, for same_letter.
#[tactic(auto, unfolding(crate::specs::Lines::format_named))]
pub fn format_named(word: &[u8]) -> Option<Format>
    ensures { result ≡ format_named word.now }
{
    match word {
        _ if is_word(word, b"utf7") => Some(Format::Utf7),
        _ if is_word(word, b"jp2") => Some(Format::Jp2),
        _ if is_word(word, b"mailbox") => Some(Format::Mailbox),
        _ => None,
    }
}
