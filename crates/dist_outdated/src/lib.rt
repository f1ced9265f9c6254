//! The sweep for outdated packages: those that no later archive can make installable.
//!
//! `sweep.rt` takes the space and its clauses from dist_subject; dist_sweep makes the file and asks for each claim.
//! `outdated_claimant.rt` keeps for each package the latest installation that holds it, so that a package is asked for only where
//! that is none that a claim may reach.
#![tactic(auto)]

mod outdated_claimant;
mod sweep;

pub use sweep::outdated;
