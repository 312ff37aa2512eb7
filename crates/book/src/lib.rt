// The ledger: the calls for an event and for a position query. Their contracts are equations with the model. An event is acted on by the
// rows that were found of what it names; programs that look rows up in another way use `acting`.
#![tactic(auto)]

pub mod acting;
pub mod event;
pub mod query;
