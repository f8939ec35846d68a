// What same_letter prints.
#![tactic(auto)]

ghost use Rattle.std.specs.Prelude.{◌≡◌, List, ◌++◌, ℕ, ◌+◌, ◌-◌, ◌≤◌, length};
ghost use Rattle.comparer.specs.Compare.{compared_as};
ghost use Rattle.same_lines.specs.Told.{says, printed, laid};
ghost use Rattle.same_lines.specs.Inner.{Holds};
ghost use Rattle.listing.specs.Listing.{status_name};

use answer::Refused;
use comparer::{Compared, Text};

// Lines: so many of the bytes.
#[derive(Clone, Copy)]
pub struct Lines {
    pub bytes: [u8; 128],
    pub size: usize,
}

// A line more.
fn with_line(lines: Lines, name: &[u8], n: usize) -> Lines
    requires { Holds lines (106 - length name.now) × (length name.now ≤ 106) }
    ensures holds { Holds result (lines.size + length name.now + 22) }
    ensures by_index { (l : List ℕ) → lines ≡ laid l → result ≡ laid (l ++ says name.now n) }
{
    let mut bytes = lines.bytes;
    let from = lines.size;
    let said = listing::say(name, n, &mut bytes[from..]);
    let size = from + answer::place(said);
    Lines { bytes, size }
}

// The line of the number, which is the first.
fn status(number: usize) -> Lines
    ensures { Holds result 28 × (result ≡ laid (says status_name number)) }
{
    let none = Lines {
        bytes: [0; 128],
        size: 0,
    };
    with_line(none, b"status", number)
}

pub fn print(found: Result<Compared, (Text, Refused)>) -> Lines
    ensures { result ≡ laid (printed (compared_as found)) }
{
    match found {
        Ok(found) => match found {
            Compared::Same(count) => with_line(status(0), b"count", count),
            Compared::Part(index, first, second) => {
                let one = with_line(status(0), b"index", index);
                let two = with_line(one, b"first", first);
                with_line(two, b"second", second)
            }
        },
        Err((which, Refused(why, place))) => {
            let number = u32::from(why) as usize;
            let one = with_line(status(number), b"text", which as usize);
            with_line(one, b"place", place)
        }
    }
}
