// The C interface, for hosts in other languages: each function hands a call on and gives its answer in numbers.
#![tactic(auto)]

pub mod pages;
pub mod steps;

ghost use Rattle.std.specs.Prelude.{◌≡◌};
ghost use Rattle.reading.specs.Reading.{read_into};
ghost use Rattle.utf7.specs.Rule.{utf7};
ghost use Rattle.utf7.specs.Writing.{write_into};
ghost use Rattle.utf7.specs.declared.Style.TheVariants.{Header, Body, Name};
ghost use Rattle.mailbox.specs.Rule.{mailbox};
ghost use Rattle.jp2.specs.Rule.{jp2};
ghost use Rattle.jp2.specs.Writing as jp2-writing;
ghost use Rattle.jp2.specs.Tally.{tally_of};
ghost use Rattle.jp2_plain.specs.Plain.{plain_into};
ghost use Rattle.host_numbers.specs.Numbers.{left};
ghost use Rattle.qalithonda.specs.Numbers.{counted};

use host_numbers::Numbers;
use utf7::Style;

#[unsafe(no_mangle)]
pub extern "C" fn qalithonda_utf7_read(text: &[u8], cells: &mut [u32]) -> Numbers
    ensures { left result cells.new ≡ read_into utf7 text.now cells.old }
{
    Numbers::from(utf7_whole::read(text, cells))
}

#[unsafe(no_mangle)]
pub extern "C" fn qalithonda_utf7_header_write(cells: &[u32], out: &mut [u8]) -> Numbers
    ensures { left result out.new ≡ write_into Header cells.now out.old }
{
    Numbers::from(utf7_write::write(Style::Header, cells, out))
}

#[unsafe(no_mangle)]
pub extern "C" fn qalithonda_utf7_body_write(cells: &[u32], out: &mut [u8]) -> Numbers
    ensures { left result out.new ≡ write_into Body cells.now out.old }
{
    Numbers::from(utf7_write::write(Style::Body, cells, out))
}

#[unsafe(no_mangle)]
pub extern "C" fn qalithonda_mailbox_read(text: &[u8], cells: &mut [u32]) -> Numbers
    ensures { left result cells.new ≡ read_into mailbox text.now cells.old }
{
    Numbers::from(utf7_whole::names::read(text, cells))
}

#[unsafe(no_mangle)]
pub extern "C" fn qalithonda_mailbox_write(cells: &[u32], out: &mut [u8]) -> Numbers
    ensures { left result out.new ≡ write_into Name cells.now out.old }
{
    Numbers::from(mailbox_write::write(cells, out))
}

#[unsafe(no_mangle)]
pub extern "C" fn qalithonda_jp2_read(text: &[u8], cells: &mut [u32]) -> Numbers
    ensures { left result cells.new ≡ read_into jp2 text.now cells.old }
{
    Numbers::from(jp2_whole::read(text, cells))
}

#[unsafe(no_mangle)]
pub extern "C" fn qalithonda_jp2_plain_read(text: &[u8], cells: &mut [u32]) -> Numbers
    ensures { left result cells.new ≡ plain_into text.now cells.old }
{
    Numbers::from(jp2_plain::read(text, cells))
}

#[unsafe(no_mangle)]
pub extern "C" fn qalithonda_jp2_write(cells: &[u32], out: &mut [u8]) -> Numbers
    ensures { left result out.new ≡ jp2-writing.write_into cells.now out.old }
{
    Numbers::from(jp2_write::write(cells, out))
}

// The nine counts are written whole, zeros where the tally is refused.
#[unsafe(no_mangle)]
pub extern "C" fn qalithonda_jp2_tally(cells: &[u32], counts: &mut [u32; 9]) -> Numbers
    ensures { counted result counts.new ≡ tally_of cells.now }
{
    let found = jp2_tally::tally(cells);
    let nine = found.counts;
    let answer = found.answer;
    *counts = nine;
    Numbers::from(answer)
}
