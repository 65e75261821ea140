// Judging: whether the atoms that an answer marks are a model, and how far an instance holds.
#![tactic(auto)]

pub mod how_far;
pub mod judge;
