// The tally of a list of JP-2 cells.
#![tactic(auto)]

ghost use Rattle.std.specs.Prelude.{◌≡◌, ◌+◌, ◌<◌, ◌^◌, get_or, set, eqb};
ghost use Rattle.answer.specs.Answer.{in_numbers};
ghost use Rattle.jp2.specs.Table.{first_where};
ghost use Rattle.jp2.specs.Tally.{sets, tally_of};

use answer::{Answer, Refusal, Refused};

#[derive(Clone, Copy)]
pub struct Tallied {
    pub answer: Answer,
    pub counts: [u32; 9],
}

// In rising number: the order of the counts, which is not the table's.
const SETS: [u32; 9] = [6, 14, 42, 58, 87, 100, 126, 149, 159];

// The place of a set's count, or 9.
fn place_of(number: u32) -> usize
    ensures { result ≡ first_where (λ s. eqb s number) sets }
{
    for (k, set) in SETS.iter().enumerate() {
        if *set == number {
            return k;
        }
    }
    SETS.len()
}

// One count is one more.
fn raise(counts: [u32; 9], k: usize) -> [u32; 9]
    requires { (k < 9) × (get_or counts k 0 + 1 < 2 ^ 32) }
    ensures { result ≡ set counts k (get_or counts k 0 + 1) }
{
    let mut next = counts;
    next[k] = counts[k] + 1;
    next
}

// One count for each set, in rising number of the sets.
pub fn tally(cells: &[u32]) -> Tallied
    ensures { (in_numbers result.answer ≡ (tally_of cells.now).verdict) × (result.counts ≡ (tally_of cells.now).counts) }
{
    if answer::over_limit(cells.len()) {
        return Tallied {
            answer: answer::too_long(),
            counts: [0; 9],
        };
    }
    let mut counts = [0; 9];
    for (i, v) in cells.iter().enumerate() {
        if !jp2::is_writable(*v) {
            return Tallied {
                answer: Err(Refused(Refusal::Unwritable, i)),
                counts: [0; 9],
            };
        }
        let next = raise(counts, place_of(*v / 65536));
        counts = next;
    }
    Tallied {
        answer: Ok(cells.len()),
        counts,
    }
}
