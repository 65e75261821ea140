// Assumptions: which calls are taken, facts added to a table, and what two runs say.
#![tactic(auto)]

pub mod assume;
pub mod check;
pub mod fact;
