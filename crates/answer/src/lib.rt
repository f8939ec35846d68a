// What a call answers: document 01, "Numbers given back".
#![tactic(auto)]

ghost use Rattle.std.specs.Prelude.{◌≡◌, ltb};
ghost use Rattle.answer.specs.Answer.{limit, too_long, in_numbers, number_of};

// "over 65,536", raised to 1,048,576 by document 02, order 10: the most elements that a lent text, list, text buffer or history may have.
pub const LIMIT: usize = 1048576;

// Why a call was refused, in the order of document 01's table, from number 1 on; those from 17 on are document 02's, orders 1, 6, 8, 13 and 14.
#[derive(Clone, Copy, PartialEq, Eq, Debug)]
pub enum Refusal {
    HighByte,
    LoneSign,
    StrayByte,
    LeftOverBits,
    UnknownEscape,
    EmptyG2,
    CutShort,
    NotAscii,
    NoRoom,
    Unwritable,
    BeyondLength,
    HistoryFull,
    NothingLeft,
    Unsound,
    NotTheText,
    OverLimit,
    NeedlessShift,
    BadPageFile,
    NoGain,
    NoSuchBench,
    BadWord,
}

// A refusal with its place.
#[derive(Clone, Copy, PartialEq, Eq, Debug)]
pub struct Refused(pub Refusal, pub usize);

// Accepted with the count of elements, or refused.
pub type Answer = Result<usize, Refused>;

#[tactic(auto, unfolding(crate::specs::Answer::limit))]
pub fn over_limit(n: usize) -> bool
    ensures { result ≡ ltb limit n }
{
    LIMIT < n
}

// The answer to a call that was lent too much.
#[tactic(auto, unfolding(crate::specs::Answer::limit))]
pub fn too_long() -> Answer
    ensures { in_numbers result ≡ too_long }
{
    Err(Refused(Refusal::OverLimit, LIMIT))
}

// The number of a refusal, in the table.
impl From<Refusal> for u32 {
    ghost from_gives = { λ why r. r ≡ number_of why };

    fn from(why: Refusal) -> u32 {
        match why {
            Refusal::HighByte => 1,
            Refusal::LoneSign => 2,
            Refusal::StrayByte => 3,
            Refusal::LeftOverBits => 4,
            Refusal::UnknownEscape => 5,
            Refusal::EmptyG2 => 6,
            Refusal::CutShort => 7,
            Refusal::NotAscii => 8,
            Refusal::NoRoom => 9,
            Refusal::Unwritable => 10,
            Refusal::BeyondLength => 11,
            Refusal::HistoryFull => 12,
            Refusal::NothingLeft => 13,
            Refusal::Unsound => 14,
            Refusal::NotTheText => 15,
            Refusal::OverLimit => 16,
            Refusal::NeedlessShift => 17,
            Refusal::BadPageFile => 18,
            Refusal::NoGain => 19,
            Refusal::NoSuchBench => 20,
            Refusal::BadWord => 21,
        }
    }
}

// The answer's number.
pub fn number(a: Answer) -> u32
    ensures { result ≡ (in_numbers a).number }
{
    match a {
        Ok(_) => 0,
        Err(Refused(why, _)) => u32::from(why),
    }
}

// The count or the place that goes with the number.
pub fn place(a: Answer) -> usize
    ensures { result ≡ (in_numbers a).place }
{
    match a {
        Ok(count) => count,
        Err(Refused(_, place)) => place,
    }
}
