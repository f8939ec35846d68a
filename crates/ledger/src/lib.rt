// The page: what its words mean, what its calls do, the ledger, and demand 3. Definitions and proofs; the calls' code is in the crate page.
#![tactic(auto)]

use answer::Answer;
use codec::Kind;

// "A page has a kind (UTF-7 header, UTF-7 body, JP-2), an opening length, a length, words used and words done." And "a saved mark: the words done at the last accepted save, or none".
#[derive(Clone, Copy)]
pub struct Page {
    pub kind: Kind,
    pub opening: usize,
    pub length: usize,
    pub used: usize,
    pub done: usize,
    pub saved: Option<usize>,
}

// What open, replace, undo, redo and save give back.
#[derive(Clone, Copy)]
pub struct Edited {
    pub answer: Answer,
    pub page: Page,
}

// What the question answers: the page is as it was saved, or opened.
#[derive(Clone, Copy)]
pub struct Asked {
    pub answer: Answer,
    pub unchanged: bool,
}
