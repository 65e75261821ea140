// Fitting a lent table by the magic engine: a first run, with a session or without, and going on with one. Buffers may have any length.
#![tactic(auto)]

pub mod fit;
