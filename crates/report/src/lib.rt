// What the programs print: of a text, by an engine.
#![tactic(auto)]

pub mod answer;
pub mod line;
pub mod program;
