//! The numbers that are enough for a file: for a sweep of each kind, and for the searches for an explanation and for a repair.
//!
//! A file asks few questions. Each question of a sweep is asked at most once (`proofs/Questions.antt`); a search for a repair asks
//! one for each number (`proofs/RepairQuestions.antt`), and one for an explanation leaves fewer relations with each refutation
//! (`proofs/ExplainQuestions.antt`). So the lines are counted (`proofs/Counts.antt`); and a line has few words, since packages and
//! pairs are no more than variables (`proofs/Widths.antt`). A change of what may be written is felt here.
#![tactic(auto)]

mod laws;

pub use laws::{budgets_are_enough, explanation_budgets_are_enough, repair_budgets_are_enough};
