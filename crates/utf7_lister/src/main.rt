// Lists the cells of a UTF-7 text that comes on standard input.
#![tactic(auto)]

use codec::Format;
use std::io::Write;

// There is room for a byte more than a lister takes, so that a longer text is known. What cannot be written is not
// told.
fn main(rt: HostRuntime) {
    let mut text = [0u8; 16385];
    let (got, _) = whole_file::read_full(&mut rt.stdin(), &mut text);
    let mut lines = [0u8; 147483];
    let printed = lister::print(Format::Utf7, &text[..got], &mut lines);
    let size = answer::place(printed);
    let _ = rt.stdout().write_all(&lines[..size]);
}
