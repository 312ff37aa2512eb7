// The run of the program `ledger` over its input: see specs. There is no code here.
#![tactic(auto)]
