//! The present: whether an installation of a repository's packages is healthy, and where it is not; and the clauses whose
//! models are the healthy installations.
//!
//! Clauses come in the order of their demands, so the first limit that they pass ends the work. Pairs in conflict are found by
//! the providers of a name and never by trying all pairs. `health` takes no memory.
#![tactic(auto)]

mod clause_text;
mod conflicts;
mod essentials;
mod faults;
mod judging;
mod kinds;
mod laws;
mod members;
mod numbers;
mod partners;
mod present_clauses;
mod present_laws;
mod rejections;

pub use judging::health;
pub use kinds::Health;
pub use laws::one_health;
pub use partners::Partners;
pub use present_clauses::clauses_of;
pub use present_laws::{
    demands_tell_health, health_is_of_sets, models_are_installations, present_clauses_are_one,
    present_clauses_are_there, present_clauses_go_on, relations_have_clauses,
};
