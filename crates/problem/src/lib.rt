// The ticket's text and its table, with no code but the answers that the definitions name, and the refusals with their numbers: what a text says, which table it reads to, and which tables are valid.
#![tactic(auto)]

pub mod fault;
pub mod judge;
pub mod line;
pub mod table;
