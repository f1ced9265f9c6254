//! The search by watched literals within the cone of a question's assumptions: conflict-driven clause learning with first
//! implication points, jumps back, an order of decisions that learns, and restarts.
//!
//! What it answers is proved: a model, hints that refute the assumptions, or a clause that is new and its hints. What it chooses is
//! not: the order of decisions, phases and restarts may change without a proof, since a decision is tested to be unset and within
//! the cone, and one scan over the cone stands behind the order.
//!
//! Clauses are watched by two literals of each, once for all questions; nothing of the log is copied. A variable outside the
//! question's cone has no value. No clause of the log can fail for that: each is safe, so that one which reaches outside has a
//! negative literal there.
#![tactic(auto)]

mod analysis;
mod propagation;
mod question;
mod search;
mod steps;
mod trail;
mod values;

pub use search::{End, Search};
