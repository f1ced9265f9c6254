//! The log of derived clauses and the two tests on which certificates rest: whether a clause follows by hints, and
//! whether it is new. The literals that are true for now are public, so that a search propagates over the same ones.
//!
//! `follows` costs the literals of the hinted clauses and takes no memory. A test of newness under the assumptions of the
//! one before it costs what the clause's own literals touch: the log keeps what its clauses give alone and under these
//! assumptions, and finds each clause by two of its literals (`watches.rt`), so that it looks at a clause when one of the
//! two becomes false. `are_new` marks as much of the cone as the lines of a question need. `is_new` begins from nothing and
//! takes each clause; so does `are_new` where memory is wanting. What stands here decides what a certificate proves: a
//! change needs the checker's laws again.
#![tactic(auto)]

mod cone;
mod conflicts;
mod denials;
mod far;
mod follows;
mod inputs;
mod laws;
mod log;
mod new_lines;
mod newness;
mod occurrences;
mod propagation;
mod rows;
mod scratch;
mod standing;
mod true_literals;
mod variable_set;
mod watched;
mod watches;
mod watching;

pub use laws::{
    cone_is_closed, cone_models_extend, first_points_are_new, lines_keep_models,
    more_clauses_keep_what_follows, new_is_no_copy, new_lines_are_few, settled_literals_make_new,
    unit_steps_are_hints, what_is_safe, what_settles_a_clause, what_settles_all,
    what_the_cone_depends_on,
};
pub use log::{AppendError, Log};
pub use occurrences::Link;
pub use scratch::Scratch;
pub use true_literals::{Outcome, TrueLiterals, Truth};
pub use variable_set::VariableSet;
pub use watches::Watches;
