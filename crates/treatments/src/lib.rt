// Events 6 to 10: a collection is settled, rejected, returned, refunded or reversed: specs/Treatments. The caller has looked for the
// collection and gives the row that it found; for any row and any lent memory the call says what it answers and writes.
#![tactic(auto)]

pub mod treat;
mod undoing;
mod verdicts;
