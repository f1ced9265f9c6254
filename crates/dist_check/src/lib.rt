//! The checker of certificates: whether a text is one of a repository, and what an accepted one proves.
//!
//! One pass over the lines, with one log and one window of installations. The promises are laws over texts
//! (`accepted_claims_hold` and its fellows): they hold of every text, whoever wrote it.
#![tactic(auto)]

mod certificates;
mod checking;
mod file;
mod laws;
mod layout;
mod start;
mod verdict;

pub use file::{check, check_with_space};
pub use laws::{
    accepted_claims_hold, each_text_has_a_verdict, marks_are_tried, texts_have_one_answer,
    texts_have_one_verdict, undecided_questions_are_hard,
};
pub use verdict::{Judged, Verdict};
