// Parts of a problem that share no predicate, run one after another by either engine.
#![tactic(auto)]

pub mod labels;
pub mod part;
pub mod parts;
pub mod turns;
