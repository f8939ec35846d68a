// What a program says on standard error: each a line that begins with the program's name. Where a write fails, the rest
// of the line is tried all the same, and the caller is told.
#![tactic(auto)]

ghost use Rattle.std.specs.Prelude.{◌≤◌, ◌++◌, ℕ, List, length, take, codes, OnOk};
ghost use Rattle.std.specs.Io.KnownBytes.{Appends};
ghost use Rattle.complain.specs.Said.{said, about, IsPlain};

use std::io;
use std::io::{Cursor, Error, Write};

// How many bytes of an error's text are the system's: the library writes the number behind it, and zeros follow.
fn text_length(text: &[u8]) -> usize
    ensures within { result ≤ length text.now }
    ensures plain { IsPlain (take result text.now) }
{
    for i in 0..text.len() {
        if text[i] == 0 || text[i..].starts_with(b" (os error ") {
            return i;
        }
    }
    text.len()
}

// The text that the system has for an error.
fn put_text<W: Write>(errors: &mut W, e: Error) -> io::Result<()>
    ensures { OnOk result ((text : List ℕ) × IsPlain text
        × Appends (W.contents errors.old) (W.contents errors.new) text) }
{
    let mut room = Cursor::new([0u8; 256]);
    // The room is longer than any text that the library has: what would not fit is left out.
    let _ = write!(room, "{e}");
    let all = room.into_inner();
    let n = text_length(&all);
    errors.write_all(&all[..n])
}

// What stands at the front of a line: a name, a colon and a space.
fn put_name<W: Write>(errors: &mut W, name: &[u8]) -> io::Result<()>
    ensures { OnOk result (Appends (W.contents errors.old) (W.contents errors.new) (name.now ++ codes ": ")) }
{
    let written = errors.write_all(name);
    let end = errors.write_all(b": ");
    written.and(end)
}

// A line: what the program says.
pub fn line<W: Write>(errors: &mut W, program: &[u8], what: &[u8]) -> io::Result<()>
    ensures { OnOk result (Appends (W.contents errors.old) (W.contents errors.new) (said program.now what.now)) }
{
    let name = put_name(errors, program);
    let said = errors.write_all(what);
    let end = errors.write_all(b"\n");
    name.and(said).and(end)
}

// A line: what the program says of something that has a name.
pub fn refuse<W: Write>(errors: &mut W, program: &[u8], name: &[u8], why: &[u8]) -> io::Result<()>
    ensures { OnOk result (Appends (W.contents errors.old) (W.contents errors.new)
        (said program.now (about name.now why.now))) }
{
    let first = put_name(errors, program);
    first.and(line(errors, name, why))
}

// A line: what failed, and the text that the system has for its error.
pub fn fail<W: Write>(errors: &mut W, program: &[u8], what: &[u8], e: Error) -> io::Result<()>
    ensures { OnOk result ((text : List ℕ) × IsPlain text × Appends (W.contents errors.old) (W.contents errors.new)
        (said program.now (about what.now text))) }
{
    let name = put_name(errors, program);
    let said = put_name(errors, what);
    let text = put_text(errors, e);
    let end = errors.write_all(b"\n");
    name.and(said).and(text).and(end)
}

// A line: something that has a name, what failed of it, and the text that the system has for the error.
pub fn fail_at<W: Write>(
    errors: &mut W,
    program: &[u8],
    name: &[u8],
    what: &[u8],
    e: Error,
) -> io::Result<()>
    ensures { OnOk result ((text : List ℕ) × IsPlain text × Appends (W.contents errors.old) (W.contents errors.new)
        (said program.now (about name.now (about what.now text)))) }
{
    let first = put_name(errors, program);
    first.and(fail(errors, name, what, e))
}

#[cfg(test)]
mod tests {
    use super::*;

    // What no contract says: that a write succeeds, and which text the system has for an error.
    #[test]
    fn says_lines(rt: HostRuntime) -> io::Result<()> {
        let mut room = Cursor::new([0u8; 128]);
        line(&mut room, b"p", b"no")?;
        refuse(&mut room, b"p", b"a", b"b")?;
        fail(&mut room, b"p", b"a", Error::from_raw_os_error(2))?;
        fail_at(&mut room, b"p", b"a", b"b", Error::from_raw_os_error(5))?;
        let said =
            b"p: no\np: a: b\np: a: No such file or directory\np: a: b: Input/output error\n\0";
        assert!(rt; room.into_inner().starts_with(said));
        Ok(())
    }
}
