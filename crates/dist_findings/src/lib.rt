//! Files whose lines answer one question, checked line by line. Behind a first line of numbers come questions, derived lines,
//! installations and what closes a question, judged as in a certificate by some clauses; a claim is wrong. What the lines find,
//! one after another, decides the answer, and the end comes once it is decided.
//!
//! A kind of file says by what clauses its lines are judged and what decides it. It takes notes of each finding as it comes, so
//! that no line is kept.
#![tactic(auto)]

mod answering;
mod checking;
mod file;
mod files;
mod finding;
mod heading;

pub use answering::Answering;
pub use file::{Answered, check_answers};
pub use finding::Finding;
pub use heading::number_at;
