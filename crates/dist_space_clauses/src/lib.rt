//! The clauses of the space of futures, made in their order: their models stand for the futures and the healthy installations
//! in them.
//!
//! A row of clauses is made for each demand from what the atoms of its package match: packages as they are by the order of versions,
//! new versions of those and of packages that may match more when they move. The words for lists of clauses are dist_clause's.
#![tactic(auto)]

mod candidates;
mod classed;
mod clause_laws;
mod clause_text;
mod clauses;
mod conflicts;
mod ends;
mod essential;
mod groups;
mod items;
mod led_clauses;
mod matched;
mod movers;

pub use clause_laws::{
    one_limit_is_passed, space_clauses_are_one, space_clauses_are_there, space_clauses_go_on,
};
pub use clauses::{clauses_of, clauses_with_ends};
pub use ends::FutureEnds;
