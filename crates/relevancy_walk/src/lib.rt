// The relevancy engine's places of a table, by which it walks. It marks the relevant facts afresh at each node.
#![tactic(auto)]

pub mod place;
