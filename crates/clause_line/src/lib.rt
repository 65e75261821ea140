// A clause line of the text, judged and laid out as a clause record.
#![tactic(auto)]

pub mod clause;
pub mod table;
