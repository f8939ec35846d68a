// Whether two arrived texts of one format read as the same cells: document 02, order 11.
#![tactic(auto)]

mod blocks;

ghost use Rattle.std.specs.Prelude.{◌≡◌, true};
ghost use Rattle.answer.specs.Answer.{in_numbers};
ghost use Rattle.comparer.specs.Compare.{found_as, compared_as, verdict_in, parts_of, compare_of};

use answer::{Answer, Refused};
use codec::Format;
use std::ops::ControlFlow;
use stepper::Place;

#[derive(Clone, Copy)]
pub enum Text {
    First = 1,
    Second = 2,
}

// What two texts that are accepted are.
#[derive(Clone, Copy)]
pub enum Compared {
    // the same, with the count of cells
    Same(usize),
    // the index of the first cell at which they part, and where it begins in each
    Part(usize, usize, usize),
}

// The texts are equal byte for byte. Each byte is compared, so that the loop compiles to no branch.
fn alike(first: &[u8], second: &[u8]) -> bool
    ensures { result ≡ true → first.now ≡ second.now }
{
    if first.len() != second.len() {
        return false;
    }
    let mut same = true;
    for k in 0..first.len() {
        same &= first[k] == second[k];
    }
    same
}

// The answer of reading a text with room enough: an empty output takes no cell, so that 9 comes with the count.
fn answer_of(format: Format, text: &[u8]) -> Answer
    ensures { in_numbers result ≡ verdict_in format text.now }
{
    let mut none = [0u32; 0];
    let found = codec::read(format, text, &mut none);
    if answer::number(found) == 9 {
        return Ok(answer::place(found));
    }
    found
}

// Where two texts part, if they do: both are read side by side.
fn parting(format: Format, first: &[u8], second: &[u8]) -> Compared
    ensures { found_as result ≡ parts_of format first.now second.now }
{
    let mut p = stepper::start(format);
    let mut q = stepper::start(format);
    let mut n: usize = 0;
    loop {
        let a = stepper::step(first, p);
        let b = stepper::step(second, q);
        let x = a.handed;
        let y = b.handed;
        match x {
            ControlFlow::Continue(c) => match y {
                ControlFlow::Continue(d) => {
                    if c.value == d.value {
                        p = a.place;
                        q = b.place;
                        n += 1;
                    } else {
                        return Compared::Part(n, c.begin, d.begin);
                    }
                }
                ControlFlow::Break(_) => {
                    return Compared::Part(n, c.begin, second.len());
                }
            },
            ControlFlow::Break(_) => match y {
                ControlFlow::Continue(d) => {
                    return Compared::Part(n, first.len(), d.begin);
                }
                ControlFlow::Break(_) => {
                    return Compared::Same(n);
                }
            },
        }
    }
}

// Each text is judged to its end, the first before the second; equal bytes are read once. What is refused is told with
// the text that it is of.
pub fn compare(format: Format, first: &[u8], second: &[u8]) -> Result<Compared, (Text, Refused)>
    ensures { compared_as result ≡ compare_of format first.now second.now }
{
    let count = match answer_of(format, first) {
        Ok(count) => count,
        Err(refused) => return Err((Text::First, refused)),
    };
    if alike(first, second) {
        return Ok(Compared::Same(count));
    }
    if let Err(refused) = answer_of(format, second) {
        return Err((Text::Second, refused));
    }
    if blocks::read_alike(format, first, second) {
        return Ok(Compared::Same(count));
    }
    Ok(parting(format, first, second))
}
