// A node of the relevancy walk: closed and marked by a table, and the instance that is split.
#![tactic(auto)]

pub mod choose;
pub mod node;
