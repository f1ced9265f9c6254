//! What sweeps of all kinds share: from the first line of a certificate to its last, with a claim for each package.
//!
//! `sweep.rt` begins with input clauses; `file.rt` makes the file and puts its lines; a `Claimant` says which questions the claim on
//! a package needs, and what it claims. `asking.rt` asks such a question; `window.rt` keeps the latest 1,024 installations. What was
//! written so far is one word (`specs/Script.antt`), and each step says what it adds to it or why it stops.
#![tactic(auto)]

mod asking;
mod bits;
mod claimant;
mod file;
mod sweep;
mod window;

pub use asking::{Reply, ask};
pub use bits::{and_into, copy_from, next_true};
pub use claimant::Claimant;
pub use sweep::{SweepInputs, write_sweep};
pub use window::Window;
