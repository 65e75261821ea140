// A session as it is lent and kept, and what the end of a run leaves of one.
#![tactic(auto)]

pub mod end;
pub mod record;
