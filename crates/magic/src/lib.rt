// The magic engine's runs of a valid table: a first one, and going on with a session.
#![tactic(auto)]

pub mod alone;
pub mod further;
pub mod whole;
