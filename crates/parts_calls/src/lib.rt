// Fitting a lent table part by part, by either engine. Buffers may have any length.
#![tactic(auto)]

pub mod by_magic;
pub mod by_relevancy;
