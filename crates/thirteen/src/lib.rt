// The dates and cents that document 01 wants proved, as one table: see specs/Thirteen. There is no code here.
#![tactic(auto)]
