// Document 01, "Ten events": the kept due, the time of a collect, the lapse of a mandate, and the last days from the settled day. Each
// function equals its definition in the model's specs/Deadlines, for any numbers.
#![tactic(auto)]

pub mod collects;
pub mod undoings;
