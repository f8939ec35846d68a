// An answer in plain numbers, as it crosses to C.
#![tactic(auto)]

ghost use Rattle.std.specs.Prelude.{◌≡◌};
ghost use Rattle.answer.specs.Answer.{in_numbers};
ghost use Rattle.host_numbers.specs.Numbers.{verdict_in};

use answer::Answer;

// An answer: its number, and its count or place.
#[repr(C)]
#[derive(Clone, Copy)]
pub struct Numbers {
    pub number: u32,
    pub place: usize,
}

impl From<Answer> for Numbers {
    ghost from_gives = { λ a r. verdict_in r ≡ in_numbers a };

    fn from(a: Answer) -> Numbers {
        Numbers {
            number: answer::number(a),
            place: answer::place(a),
        }
    }
}
