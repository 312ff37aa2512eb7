// Lists of events that the ledger accepts: see specs. There is no code here.
#![tactic(auto)]
