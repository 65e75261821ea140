// U13, claims alone: the same clauses in another order, and constants renumbered, never turn one verdict into the other.
#![tactic(auto)]
