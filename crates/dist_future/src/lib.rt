//! Futures: the archives that may come of a repository, and what the variables and clauses of its space mean for them.
//!
//! The definitions (`specs/Future.antt`, `Outdated.antt`) know no class, clause or variable; the laws tie them to the models of
//! the clauses, both ways. `health_in` takes no memory.
#![tactic(auto)]

mod found;
mod health;
mod health_kind;
mod health_laws;
mod laws;
mod no_future;
mod pair_laws;

pub use dist_space::{Meaning, Space, SpaceError, space_of, spaces_are_one, spaces_are_there};
pub use dist_space_clauses::{
    FutureEnds, clauses_of, clauses_with_ends, one_limit_is_passed, space_clauses_are_one,
    space_clauses_are_there, space_clauses_go_on,
};
pub use health::health_in;
pub use health_kind::FutureHealth;
pub use health_laws::{
    future_clauses_are_two_parts, futures_meet_their_clauses, healthy_are_models,
    healthy_stand_for_futures, one_future_health,
};
pub use laws::{each_model_is_a_future, models_stand_for_futures, models_tell_of_moves};
pub use pair_laws::{
    clusters_and_classes_are_numbered, covered_pairs_have_models, models_tell_of_packages,
};
