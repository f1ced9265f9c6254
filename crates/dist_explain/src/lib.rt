//! Explanations: which relations between packages suffice to keep a package from being installed, and which of these are
//! needed.
//!
//! A relation is a clause of the present. Each clause gets a selector, a variable that makes it count, so that a question names
//! the relations that it rests on, and a refutation needs no others. A file of such questions, with their refutations and
//! installations, is checked line by line; the last question of relations that it refutes is the explanation.
#![tactic(auto)]

mod asked;
mod explained;
mod explaining;
mod file;
mod inputs;
mod laws;
mod listed;
mod notes;
mod relations;
mod selected;
mod verdict;

pub use asked::Asked;
pub use explained::Explained;
pub use explaining::Explaining;
pub use file::check_explained;
pub use inputs::selected_inputs;
pub use laws::{
    accepted_explanations_hold, explanation_texts_have_one_verdict, explanations_have_one_answer,
    marked_relations_are_answered, selectors_explain,
};
pub use listed::put_in_order;
pub use notes::Notes;
pub use relations::{Relation, relations_of};
pub use selected::with_selectors;
pub use verdict::{ExplainHeader, ExplainVerdict};
