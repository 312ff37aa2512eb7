// The text line of an event, document 01, "The text line": reading it and writing it.
#![tactic(auto)]

pub mod line;
