// Demand 3 on the entries, and the examples of document 01. All of it stands in specs/ and proofs/.
#![tactic(auto)]
