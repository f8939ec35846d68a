// Master and apprentice: two benches that share one history. Types, definitions and proofs, no code.
#![tactic(auto)]

use answer::Answer;
use codec::Kind;

// "Each bench has its own kind, text, count of standing steps and saved mark"; its lengths are those of a page.
#[derive(Clone, Copy)]
pub struct Bench {
    pub kind: Kind,
    pub opening: usize,
    pub length: usize,
    pub standing: usize,
    pub saved: Option<usize>,
}

// Both benches, and the words used in the history between them.
#[derive(Clone, Copy)]
pub struct Benches {
    pub bench0: Bench,
    pub bench1: Bench,
    pub used: usize,
}

// What open, replace, undo, redo and save give back.
#[derive(Clone, Copy)]
pub struct Edited {
    pub answer: Answer,
    pub benches: Benches,
}
