// The walk of every engine, written once over a trait: visiting a node and trying its alternatives, from the root on, and going on with a session.
#![tactic(auto)]

pub mod alternatives;
pub mod engine;
pub mod left;
pub mod resume;
pub mod visiting;
