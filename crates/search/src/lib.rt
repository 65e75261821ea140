// The mathematics of the walk, with no code: definitions and claims are in specs/, their proofs in proofs/.
#![tactic(auto)]
