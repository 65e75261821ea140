// Writing a table out as text, and whether a table is valid.
#![tactic(auto)]

pub mod lent;
pub mod taken;
pub mod write;
