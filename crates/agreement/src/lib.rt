// Demand 3 over both engines' operations. There is no code: all of it is in specs/ and proofs/.
#![tactic(auto)]
