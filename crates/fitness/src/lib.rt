// When lent memory is fit: refusal 2 of document 01. The lender gives any sizes and any content, and every public function
// answers for them.
#![tactic(auto)]

pub mod fitness;
