// One line of the text: its digits, its bytes, and the faults of the lines that are no clause; and the powers that reading needs.
#![tactic(auto)]

pub mod digit;
pub mod frame;
pub mod judge;
pub mod line;
pub mod power;
