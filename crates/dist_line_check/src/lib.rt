//! Files checked line by line, whatever their first lines say. What is kept of the lines before a line are the clauses, the open
//! question, and what a kind of file notes of them; by it a line is judged and taken.
//!
//! A kind of file judges its claims and its end itself, and notes what lines find. All other lines are judged here, as those of
//! a certificate. An installation is put into a set, which is emptied again behind its test.
#![tactic(auto)]

mod above;
mod checker;
mod checking;
mod future;
mod judging;
mod kind;
mod lines;
mod literals;
mod members;
mod question;
mod tools;

pub use checker::Checker;
pub use checking::check_lines;
pub use future::FutureClauses;
pub use kind::Kind;
pub use lines::Kept;
