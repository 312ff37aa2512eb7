// What the counter asks, line by line: docs/DECISIONS.md, 79. A question is asked in each line of a text and answered in one; which
// question it is stands in a module of its own. Every public function answers for any input.
#![tactic(auto)]

mod answering;
mod question;
pub mod slide;

// What a call leaves: the lines answered so far, the bytes of the rest that it kept, and the bytes written.
#[derive(Clone, Copy, Debug, PartialEq, Eq)]
pub struct Piece {
    pub lines: u64,
    pub partial: usize,
    pub written: usize,
}
