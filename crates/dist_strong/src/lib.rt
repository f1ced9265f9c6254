//! The strong sweep: for each package a certificate of which other packages every healthy installation with it has.
//!
//! `sweep.rt` takes the input clauses from dist_subject and writes the file by dist_sweep. `claiming.rt` makes the claim on one
//! package: after its own question `settling.rt` asks for the package without each candidate that is left. Each installation that
//! is found strikes candidates (`candidates.rt`, by whole words), so that few questions are asked.
#![tactic(auto)]

mod candidates;
mod claimant;
mod claiming;
mod group;
mod settling;
mod sweep;

pub use sweep::strong;
