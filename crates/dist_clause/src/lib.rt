//! Literals, clauses, assignments, the test whether an assignment is a model, and clauses that are made from demands.
//!
//! All literals of a set lie in one vector of words, so a clause costs its literals and one end. The two limits of a set are
//! tried before memory is asked for, so that passing one is told exactly. A list of demands in their order has one list of
//! clauses (`specs/Demands.antt`): the present and the futures are both made so.
#![tactic(auto)]

mod assignment;
mod clause_set;
mod literal;

pub use assignment::Assignment;
pub use clause_set::{ClauseSet, PushError};
pub use literal::Lit;
