// Comparing for hosts: what the comparer finds, in plain numbers.
#![tactic(auto)]

ghost use Rattle.std.specs.Prelude.{◌≡◌};
ghost use Rattle.comparer.specs.Compare.{compared_as, compare_of};
ghost use Rattle.host_compare.specs.Compared.{in_host, hears};

use answer::Refused;
use codec::Format;
use comparer::{Compared, Text};
use host_numbers::Numbers;

// The answer, which text is refused (0: none, 1, 2), whether they are the same (1) and else where they part: the cell's
// index, and where it begins in each.
#[repr(C)]
#[derive(Clone, Copy)]
pub struct HostCompared {
    pub answer: Numbers,
    pub text: u32,
    pub same: u32,
    pub index: usize,
    pub first: usize,
    pub second: usize,
}

fn in_host(found: Result<Compared, (Text, Refused)>) -> HostCompared
    ensures { hears result ≡ in_host (compared_as found) }
{
    match found {
        Ok(Compared::Same(count)) => HostCompared {
            answer: Ok(count).into(),
            text: 0,
            same: 1,
            index: 0,
            first: 0,
            second: 0,
        },
        Ok(Compared::Part(index, first, second)) => HostCompared {
            answer: Ok(0).into(),
            text: 0,
            same: 0,
            index,
            first,
            second,
        },
        Err((which, refused)) => HostCompared {
            answer: Err(refused).into(),
            text: which as u32,
            same: 0,
            index: 0,
            first: 0,
            second: 0,
        },
    }
}

pub fn compare(format: Format, first: &[u8], second: &[u8]) -> HostCompared
    ensures { hears result ≡ in_host (compare_of format first.now second.now) }
{
    in_host(comparer::compare(format, first, second))
}
