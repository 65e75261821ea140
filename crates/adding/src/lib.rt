// One clause more in a table: what its clauses weigh, and a record appended to it.
#![tactic(auto)]

pub mod append;
