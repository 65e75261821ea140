// The magic engine's places by the rules of a buffer, by which it walks. It is lent no table, and keeps all facts of a node going down.
#![tactic(auto)]

pub mod place;
