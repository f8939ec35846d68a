// What a lister prints of the bytes that came, in every format.
#![tactic(auto)]

ghost use Rattle.std.specs.Prelude.{◌≡◌};
ghost use Rattle.answer.specs.Output.{leaves};
ghost use Rattle.lister.specs.Printed.{print_into};

use answer::{Answer, Refusal, Refused};
use codec::Format;

// "at most 16,384 bytes"
const MOST: usize = 16384;

// Spells what a lister prints into an output.
pub fn print(format: Format, text: &[u8], out: &mut [u8]) -> Answer
    ensures { leaves result out.new ≡ print_into format text.now out.old }
{
    let mut cells = [0u32; 16384];
    if MOST < text.len() {
        return listing::list(Err(Refused(Refusal::OverLimit, MOST)), &cells[..0], out);
    }
    let found = codec::read(format, text, &mut cells);
    let count = answer::place(found);
    match found {
        Ok(_) => listing::list(found, &cells[..count], out),
        Err(_) => listing::list(found, &cells[..0], out),
    }
}
