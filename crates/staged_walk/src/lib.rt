// The staged engine's places of a table, by which it walks. It marks in stages, afresh at each node.
#![tactic(auto)]

pub mod place;
