// The call for a text of events: the lines of the program's input, answered one after the other.
#![tactic(auto)]

pub mod text;
