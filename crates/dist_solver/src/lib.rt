//! The search behind every question: it answers with a model, with a refutation, or with the stated number of new lines.
//! Whatever it answers, the lines that it added follow by hints and are new, so that no answer has to be believed.
//!
//! The quick phase of dist_quick guesses first (`guesses.rt`), and a question may come with a guess at its model, which is tried
//! before (`ask_guessing`). Each guess is tested before it leaves (`tested.rt`): a model by the clauses in which its true variables
//! are negated, hints by `follows`. Where none passes its test, the search of dist_search answers, within the cone of the
//! assumptions (`search.rt`). It is proved, and what it says is not tested again. It is made at the first question that the
//! guesses leave open, and is kept over questions, so that a later one costs nothing in the number of clauses.
#![tactic(auto)]

mod answers;
mod guesses;
mod lines;
mod search;
mod tested;

pub use answers::{Answer, AskError, Hints};
pub use lines::Derived;
pub use search::Solver;
