// Atoms and instances of a table's clauses, the alternatives to enter, and an engine's verdict.
#![tactic(auto)]

pub mod atom;
pub mod branch;
pub mod instance;
pub mod verdict;
