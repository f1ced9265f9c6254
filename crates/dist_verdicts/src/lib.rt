//! What the check of a text over a few stanzas answers, and what an accepted one claims. For tests alone.
#![tactic(auto)]

mod answers;
mod claims;
mod edits;

pub use answers::{Answer, answer, answer_at, at, fault_of, is_accepted};
pub use claims::are_said;
pub use edits::edited;
