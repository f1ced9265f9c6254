//! What a checker of certificates notes of the lines before a line: the latest installations, the group of the next claim, and
//! the claims. By it it tells the first fault of a claim or of the end.
//!
//! That what is noted is enough is shown in dist_check, against the definition of acceptance.
#![tactic(auto)]

mod from_zero;
mod judging;
mod kinds;
mod state;

pub use state::State;
