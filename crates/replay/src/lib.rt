// Replay: a lent list of events on a ledger that is opened first, with what is promised of every list in its contract.
#![tactic(auto)]

pub mod replay;
