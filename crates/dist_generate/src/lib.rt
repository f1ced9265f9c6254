//! Archives that are made from a size and a seed, for runs without a file.
//!
//! A package depends on packages of smaller numbers alone, and conflicts with such alone. A text is written in one pass, in
//! time linear in its bytes: each draw is made where its value is written.
#![tactic(auto)]

mod draws;
mod laws;
mod stanzas;

pub use laws::generated_texts_are_archives;
pub use stanzas::generate;
