// The staged engine's operation.
#![tactic(auto)]

pub mod fit;
pub mod whole;
