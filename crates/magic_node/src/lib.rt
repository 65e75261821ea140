// A node of the magic walk: closed by the rules of a buffer, and the instance that is split.
#![tactic(auto)]

pub mod choose;
pub mod node;
