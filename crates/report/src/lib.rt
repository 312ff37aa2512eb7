// The lines of the program `ledger`, document 01, "The text line": where a line of the input ends, and the lines that the program
// writes. Every public function answers for any input.
#![tactic(auto)]

pub mod cut;
pub mod layout;
