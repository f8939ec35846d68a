// A file, or an input, read whole, and the arguments that name files. A read that a signal interrupts is made again.
#![tactic(auto)]

ghost use Rattle.std.specs.Prelude.{◌≤◌, ◌<◌, ◌≡◌, length, take, pos, Some, IfOk, IfErr, ◌⊎◌, OnOk, OnErr, MatchResult, IsUtf8};
ghost use Rattle.std.specs.Io.KnownBytes.{Consumes, IsAtEnd, Keeps};
ghost use Rattle.std.specs.IoError.{raw_os_error};

use std::env::{Env, FillError};
use std::io::{Error, ErrorKind, Read};
use std::rt::{Files, HostRuntime};
use std::{fs, io};

// The system's number for bytes that are no text, "Invalid or incomplete multibyte or wide character".
const EILSEQ: i32 = 84;

// The system's numbers for an argument that is not there, and for one that is too long.
const EINVAL: i32 = 22;

const ENAMETOOLONG: i32 = 36;

// Reads once, and again where a signal interrupted that before any byte came: none at the end of the input. What the
// bytes are is known where those of the reader are.
pub fn read_some<R: Read>(input: &mut R, buf: &mut [u8]) -> io::Result<usize>
    ensures within { IfOk result (λ n. n ≤ length buf.new) }
    ensures bytes { IfOk result (λ n. Consumes (R.remaining input.old) (R.remaining input.new) (take n buf.new)) }
    ensures end { IfOk result (λ n. n ≡ 0 → 0 < length buf.old → IsAtEnd (R.remaining input.new)) }
    ensures none { OnErr result (Keeps (R.remaining input.old) (R.remaining input.new)) }
{
    // A proved loop has to end, and nothing says that the signals do: so it counts to a number that no run uses up.
    for _ in 0..u64::MAX {
        match input.read(buf) {
            Ok(n) => return Ok(n),
            Err(e) if e.kind() == ErrorKind::Interrupted => {}
            Err(e) => return Err(e),
        }
    }
    Err(Error::from(ErrorKind::TimedOut))
}

// An argument, which names a file, and how many bytes it has; or the system's fault for one that is not there, or
// longer than the buffer.
pub fn argument<E: Env>(rt: &E, i: usize, buf: &mut [u8]) -> io::Result<usize>
    ensures within { IfOk result (λ n. n ≤ length buf.new) }
    ensures fault { IfErr result (λ e. (raw_os_error e ≡ Some (pos 22)) ⊎ (raw_os_error e ≡ Some (pos 36))) }
{
    match rt.arg(i, buf) {
        Ok(size) => Ok(size),
        Err(FillError::NotPresent) => Err(Error::from_raw_os_error(EINVAL)),
        Err(FillError::TooLong) => Err(Error::from_raw_os_error(ENAMETOOLONG)),
    }
}

// The same of the process's own arguments, for programs. (A function of its own, since by any `Env` a program would
// reach the contracts of all that an `Env` can do.)
pub fn process_argument(rt: &HostRuntime, i: usize, buf: &mut [u8]) -> io::Result<usize>
    ensures within { IfOk result (λ n. n ≤ length buf.new) }
    ensures fault { IfErr result (λ e. (raw_os_error e ≡ Some (pos 22)) ⊎ (raw_os_error e ≡ Some (pos 36))) }
{
    match rt.arg(i, buf) {
        Ok(n) => Ok(n),
        Err(FillError::NotPresent) => Err(Error::from_raw_os_error(EINVAL)),
        Err(FillError::TooLong) => Err(Error::from_raw_os_error(ENAMETOOLONG)),
    }
}

// A file's name as the library takes it. One that is no UTF-8 text is refused with EILSEQ: the library opens no other.
pub fn path(name: &[u8]) -> io::Result<&str>
    ensures { MatchResult result (λ s. s.now ≡ name.now)
        (λ e. ¬ (IsUtf8 name.now) × (raw_os_error e ≡ Some (pos 84))) }
{
    str::from_utf8(name).map_err(|_| Error::from_raw_os_error(EILSEQ))
}

// Reads a file by its name, to its end or until the buffer is full, and says how many bytes came. A file that was only
// read is closed whatever the close says.
pub fn read<R: Files>(rt: &R, name: &[u8], buf: &mut [u8]) -> io::Result<usize>
    ensures { IfOk result (λ n. n ≤ length buf.new) }
{
    let mut file = fs::open(rt, path(name)?)?;
    let (n, all) = read_full(&mut file, buf);
    all.map(|()| n)
}

// Reads until a buffer is full, the input ends or a read fails. It says how many bytes came, which are the next ones of
// the input, and no more of it is read; and whether a read failed. Where none did, and the buffer is not full, the
// input has ended.
pub fn read_full<R: Read>(input: &mut R, buf: &mut [u8]) -> (usize, io::Result<()>)
    ensures within { result.0 ≤ length buf.new }
    ensures bytes { Consumes (R.remaining input.old) (R.remaining input.new) (take result.0 buf.new) }
    ensures end { OnOk result.1 (result.0 < length buf.new → IsAtEnd (R.remaining input.new)) }
{
    let mut at: usize = 0;
    while at < buf.len() {
        match read_some(input, &mut buf[at..]) {
            Ok(0) => return (at, Ok(())),
            Ok(n) => at += n,
            Err(e) => return (at, Err(e)),
        }
    }
    (at, Ok(()))
}

#[cfg(test)]
mod tests {
    use super::*;

    // An environment with one argument, at place 1.
    struct OneWord;

    impl Env for OneWord {
        fn arg(&self, i: usize, buf: &mut [u8]) -> Result<usize, FillError> {
            if i != 1 {
                return Err(FillError::NotPresent);
            }
            if buf.len() < 2 {
                return Err(FillError::TooLong);
            }
            buf[0] = b'h';
            buf[1] = b'i';
            Ok(2)
        }

        fn var(&self, _name: &str, _buf: &mut [u8]) -> Result<usize, FillError> {
            Err(FillError::NotPresent)
        }

        fn var_at(&self, _i: usize, _buf: &mut [u8]) -> Result<usize, FillError> {
            Err(FillError::NotPresent)
        }
    }

    // What no contract says: which argument comes, and which of the two faults.
    #[test]
    fn takes_any_env(rt: HostRuntime) -> io::Result<()> {
        let mut word = [0u8; 4];
        let n = argument(&OneWord, 1, &mut word)?;
        assert!(rt; word[..n].starts_with(b"hi"));
        assert!(rt; n == 2);
        let missing = argument(&OneWord, 2, &mut word).err();
        assert!(rt; missing.and_then(|e| e.raw_os_error()) == Some(EINVAL));
        let long = argument(&OneWord, 1, &mut word[..1]).err();
        assert!(rt; long.and_then(|e| e.raw_os_error()) == Some(ENAMETOOLONG));
        let mut any = [0u8; 4096];
        let mut own = [0u8; 4096];
        let named = argument(&rt, 0, &mut any)?;
        assert!(rt; named == process_argument(&rt, 0, &mut own)?);
        assert!(rt; any == own);
        Ok(())
    }
}
