// The C interface, its subject lines. They are an object of their own in the archive, so that what else is exported is
// compiled as it was: with a second user of UTF-7's bytes and writer LLVM would inline these elsewhere.
#![tactic(auto)]

ghost use Rattle.std.specs.Prelude.{◌≡◌};
ghost use Rattle.reading.specs.Reading.{read_into};
ghost use Rattle.encoded_word.specs.Rule.{subject};
ghost use Rattle.encoded_word.specs.Writing.{write_into};
ghost use Rattle.host_numbers.specs.Numbers.{left};

use host_numbers::Numbers;

#[unsafe(no_mangle)]
pub extern "C" fn qalithonda_subject_read(line: &[u8], cells: &mut [u32]) -> Numbers
    ensures { left result cells.new ≡ read_into subject line.now cells.old }
{
    Numbers::from(encoded_word_read::read(line, cells))
}

#[unsafe(no_mangle)]
pub extern "C" fn qalithonda_subject_write(units: &[u32], line: &mut [u8]) -> Numbers
    ensures { left result line.new ≡ write_into units.now line.old }
{
    Numbers::from(encoded_word_write::write(units, line))
}
