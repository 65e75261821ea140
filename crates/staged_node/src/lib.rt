// A node of the staged walk: marking that stops as soon as an instance can be split.
#![tactic(auto)]

pub mod chains;
pub mod node;
pub mod stages;
pub mod step;
