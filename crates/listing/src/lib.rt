// The end of the input of the program `ledger`, document 01, "The text line": the answer to bytes behind the last line, and the
// listing of positions. Every public function answers for any input.
#![tactic(auto)]

pub mod ending;
pub mod listing;
pub mod past;
