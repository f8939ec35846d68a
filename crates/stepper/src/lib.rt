// A reader that remembers its text, over the steps of utf7_read, jp2_read and mailbox_read: document 01, "step through a lent text one cell at a time".
#![tactic(auto)]

ghost use Rattle.std.specs.Prelude.{◌≡◌};
ghost use Rattle.reading.specs.Stepping.{on_spot};
ghost use Rattle.reading.specs.Decoding.{step_by};
ghost use Rattle.stepper.specs.Stepper.{told, gift, start_of, given_at, place_after, opened, given_by, moved_of};

use answer::Answer;
use codec::Format;
use reading::{Cursor, Decoder, Marked};
use std::ops::ControlFlow;

// Where a reader stands in a text of its format.
#[derive(Clone, Copy)]
pub enum Place {
    Utf7(Cursor<utf7_read::State>),
    Jp2(Cursor<jp2_read::State>),
    Mailbox(Cursor<mailbox_read::State>),
}

// What a step hands out: the next cell with its bytes, or the answer of reading the whole text with room enough.
pub type Handed = ControlFlow<Answer, Marked>;

// What a step hands out, and where the next one starts: behind the cell, or at the same place where the answer was given.
#[derive(Clone, Copy)]
pub struct Turn {
    pub handed: Handed,
    pub place: Place,
}

pub fn start(format: Format) -> Place
    ensures { result ≡ start_of format }
{
    match format {
        Format::Utf7 => Place::Utf7(utf7_read::start()),
        Format::Jp2 => Place::Jp2(jp2_read::start()),
        Format::Mailbox => Place::Mailbox(mailbox_read::start()),
    }
}

// What a step hands out, and the cursor behind it.
fn turned<D: Decoder>(text: &[u8], c: Cursor<D>) -> (Handed, Cursor<D>)
    ensures { (told result.0 ≡ gift (step_by D.code text.now c)) × (result.1 ≡ on_spot (step_by D.code text.now c) c) }
{
    match reading::step(text, c) {
        ControlFlow::Continue(given) => (ControlFlow::Continue(given.cell), given.next),
        ControlFlow::Break(answer) => (ControlFlow::Break(answer), c),
    }
}

// One step from any place of a text.
pub fn step(text: &[u8], place: Place) -> Turn
    ensures { (told result.handed ≡ given_at text.now place) × (result.place ≡ place_after text.now place) }
{
    match place {
        Place::Utf7(c) => {
            let (handed, next) = turned(text, c);
            let place = Place::Utf7(next);
            Turn { handed, place }
        }
        Place::Jp2(c) => {
            let (handed, next) = turned(text, c);
            let place = Place::Jp2(next);
            Turn { handed, place }
        }
        Place::Mailbox(c) => {
            let (handed, next) = turned(text, c);
            let place = Place::Mailbox(next);
            Turn { handed, place }
        }
    }
}

// A reader holds its text and the place where its next step starts.
#[derive(Clone, Copy)]
pub struct Reader<'a> {
    pub text: &'a [u8],
    pub place: Place,
}

pub fn new<'a>(text: &'a [u8], format: Format) -> Reader<'a>
    ensures { result ≡ opened text.entry format }
{
    Reader {
        text,
        place: start(format),
    }
}

// Hands out the next cell or the answer, and moves the reader on.
pub fn next<'s, 'a>(reader: &'s mut Reader<'a>) -> Handed
    ensures { (told result ≡ given_by reader.old) × (reader.new ≡ moved_of reader.old) }
{
    let turn = step(reader.text, reader.place);
    reader.place = turn.place;
    turn.handed
}

// One step by a reader that is made for it: for whoever keeps a place and no reader.
pub fn step_once(text: &[u8], place: Place) -> Turn
    ensures { (told result.handed ≡ given_at text.now place) × (result.place ≡ place_after text.now place) }
{
    let mut reader = Reader { text, place };
    let handed = next(&mut reader);
    let place = reader.place;
    Turn { handed, place }
}
