//! The sweep for challenges: which later versions challenge a package.
//!
//! `sweep.rt` takes the space and its clauses from dist_subject; dist_sweep makes the file and asks for each claim.
//! `challenged_claimant.rt` makes the claim on a package by an installation of today, known or asked for (`today.rt`). What the claim
//! names, and which pairs of a cluster and a class are left, dist_covering says; each pair that is left is asked for once (`settling.rt`).
//!
//! An installation of today may be as large as the archive, where one package needs the next. So that not each package writes one
//! of its own, nor goes through all pairs of it, `planning.rt` of dist_covering takes the pairs from a small installation that is found
//! for the first of them, and `today.rt` guesses at an installation of today that holds the next packages too (`ahead.rt` says when).
//! `asking.rt` has the question of two variables.
#![tactic(auto)]

mod ahead;
mod asking;
mod challenged_claimant;
mod settling;
mod sweep;
mod today;

pub use sweep::challenged;
