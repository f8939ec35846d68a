// Writing mailbox names.
#![tactic(auto)]

ghost use Rattle.std.specs.Prelude.{◌≡◌};
ghost use Rattle.answer.specs.Output.{leaves};
ghost use Rattle.utf7.specs.Writing.{write_into};
ghost use Rattle.utf7.specs.declared.Style.TheVariants.{Name};

use answer::Answer;
use utf7::Style;

// Writes cells into an output.
pub fn write(cells: &[u32], out: &mut [u8]) -> Answer
    ensures { leaves result out.new ≡ write_into Name cells.now out.old }
{
    utf7_write::write(Style::Name, cells, out)
}
