// Fitting a lent table by the relevancy engine: a first run, with a session or without, and going on with one. Buffers may have any length.
#![tactic(auto)]

pub mod fit;
