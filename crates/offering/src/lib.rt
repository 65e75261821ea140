// A rule offered, then set (02: U4): a clause frame judged as the next clause line, a slip that holds it, and the clause added to the table.
#![tactic(auto)]

pub mod next;
pub mod offer;
