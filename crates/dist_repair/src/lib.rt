//! Repairs: the fewest source clusters that must move so that a package can be installed.
//!
//! Behind the variables and clauses of the space of the futures stand a counter's, so that a question can ask for no more than
//! some number of clusters that move.
#![tactic(auto)]

mod checking;
mod counted;
mod counter;
mod inputs;
mod laws;
mod moved;
mod notes;
mod repair;
mod repairing;
mod verdict;
mod words;

pub use checking::check_repair;
pub use counted::with_counter;
pub use inputs::repair_inputs;
pub use laws::{
    accepted_repairs_hold, counters_count_moves, questions_decide, repair_texts_have_one_verdict,
    repairs_have_one_answer,
};
pub use notes::Notes;
pub use repair::Repair;
pub use repairing::{Repairing, words_of};
pub use verdict::{RepairHeader, RepairVerdict};
pub use words::Words;
