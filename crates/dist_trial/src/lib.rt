//! Trials: an archive of a size and a seed is made, swept for each kind of certificate and checked in memory, and what comes of it
//! is told in a few lines.
//!
//! A trial takes what its sweeps and their checks take, one after another, apart from work linear in the bytes of the archive and of
//! the certificates. Only one certificate is in memory at a time.
#![tactic(auto)]

mod archive;
mod claiming;
mod laws;
mod summary;
mod trials;
mod trying;

pub use laws::marks_are_counted;
pub use trials::Trial;
pub use trying::trial;
