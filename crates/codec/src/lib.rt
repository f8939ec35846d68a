// The formats side by side, and by the kind of a page: what the page stands on.
#![tactic(auto)]

ghost use Rattle.std.specs.Prelude.{◌≡◌};
ghost use Rattle.answer.specs.Output.{leaves};
ghost use Rattle.codec.specs.Kinds.{format_of, bytes_per_cell, bytes_at_end, most_bytes};
ghost use Rattle.codec.specs.Numbers.{kind_number, Decodes};
ghost use Rattle.codec.specs.Kinds.{read_in, first_unwritable, write_in, reads_in};

use answer::Answer;
use utf7::Style;

// What a text is read as. A mailbox name is no kind of page.
#[derive(Clone, Copy, PartialEq, Eq, Debug)]
pub enum Format {
    Utf7,
    Jp2,
    Mailbox,
}

// "A page has a kind (UTF-7 header, UTF-7 body, JP-2)."
#[derive(Clone, Copy, PartialEq, Eq, Debug)]
pub enum Kind {
    Utf7Header,
    Utf7Body,
    Jp2,
}

// A number that is no kind's.
#[derive(Clone, Copy, PartialEq, Eq, Debug)]
pub struct NoKind(pub u32);

// The number of a kind, as it crosses to C.
impl From<Kind> for u32 {
    ghost from_gives = { λ kind r. r ≡ kind_number kind };

    #[tactic(auto, unfolding(crate::specs::Numbers::kind_number))]
    fn from(kind: Kind) -> u32 {
        match kind {
            Kind::Utf7Header => 0,
            Kind::Utf7Body => 1,
            Kind::Jp2 => 2,
        }
    }
}

impl TryFrom<u32> for Kind {
    type Error = NoKind;

    ghost try_from_gives = { Decodes };

    #[tactic(auto, unfolding(crate::specs::Numbers::kind_number))]
    fn try_from(number: u32) -> Result<Kind, NoKind> {
        match number {
            0 => Ok(Kind::Utf7Header),
            1 => Ok(Kind::Utf7Body),
            2 => Ok(Kind::Jp2),
            _ => Err(NoKind(number)),
        }
    }
}

// "Each kind carries its own greatest number of bytes for one cell, 5, 5 and 6, and its bytes at the end, 0, 0 and 3."
impl Kind {
    pub const UTF7_PER_CELL: usize = utf7_write::PER_CELL;

    pub const UTF7_AT_END: usize = 0;

    pub const JP2_PER_CELL: usize = 6;

    pub const JP2_AT_END: usize = 3;

    // An output of so many bytes has room for all cells within the limit, whatever the kind.
    pub const MOST_BYTES: usize = Kind::JP2_PER_CELL * answer::LIMIT + Kind::JP2_AT_END;

    pub fn most_bytes() -> usize
        ensures { result ≡ most_bytes }
    {
        Kind::MOST_BYTES
    }

    #[tactic(auto, unfolding(crate::specs::Kinds::bytes_per_cell))]
    pub fn bytes_per_cell(self) -> usize
        ensures { result ≡ bytes_per_cell self }
    {
        match self {
            Kind::Utf7Header | Kind::Utf7Body => Kind::UTF7_PER_CELL,
            Kind::Jp2 => Kind::JP2_PER_CELL,
        }
    }

    #[tactic(auto, unfolding(crate::specs::Kinds::bytes_at_end))]
    pub fn bytes_at_end(self) -> usize
        ensures { result ≡ bytes_at_end self }
    {
        match self {
            Kind::Utf7Header | Kind::Utf7Body => Kind::UTF7_AT_END,
            Kind::Jp2 => Kind::JP2_AT_END,
        }
    }

    #[tactic(auto, unfolding(crate::specs::Kinds::format_of))]
    pub fn format(self) -> Format
        ensures { result ≡ format_of self }
    {
        match self {
            Kind::Utf7Header | Kind::Utf7Body => Format::Utf7,
            Kind::Jp2 => Format::Jp2,
        }
    }
}

// Reads a text of a format into an output.
pub fn read(format: Format, text: &[u8], out: &mut [u32]) -> Answer
    ensures { leaves result out.new ≡ read_in format text.now out.old }
{
    match format {
        Format::Utf7 => utf7_whole::read(text, out),
        Format::Jp2 => jp2_whole::read(text, out),
        Format::Mailbox => utf7_whole::names::read(text, out),
    }
}

// The text is accepted and reads as the cells.
pub fn reads_as(format: Format, text: &[u8], cells: &[u32]) -> bool
    ensures { result ≡ reads_in format text.now cells.now }
{
    match format {
        Format::Utf7 => utf7_whole::reads_as(text, cells),
        Format::Jp2 => jp2_whole::reads_as(text, cells),
        Format::Mailbox => utf7_whole::names::reads_as(text, cells),
    }
}

// The index of the first cell that is not writable in a kind, or the length.
#[tactic(auto, unfolding(crate::specs::Kinds::first_unwritable))]
pub fn first_unwritable(kind: Kind, cells: &[u32]) -> usize
    ensures { result ≡ first_unwritable kind cells.now }
{
    match kind {
        Kind::Utf7Header | Kind::Utf7Body => utf7::first_over(cells),
        Kind::Jp2 => jp2::first_foreign(cells),
    }
}

// Writes cells in a kind into an output.
pub fn write(kind: Kind, cells: &[u32], out: &mut [u8]) -> Answer
    ensures { leaves result out.new ≡ write_in kind cells.now out.old }
{
    match kind {
        Kind::Utf7Header => utf7_write::write(Style::Header, cells, out),
        Kind::Utf7Body => utf7_write::write(Style::Body, cells, out),
        Kind::Jp2 => jp2_write::write(cells, out),
    }
}
