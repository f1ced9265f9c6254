//! What tests of several layers share: texts of a few lines, the repositories and clauses of such texts, words, files, and limits
//! that are lower than the stated ones. For tests alone.
#![tactic(auto)]

mod claims;
mod files;
mod limits;
mod numbers;
mod stanzas;
mod texts;
mod words;

pub use claims::Said;
pub use files::is_held;
pub use limits::limited;
pub use numbers::{ClauseLimits, add, clause, has, push, push_all};
pub use stanzas::repository;
pub use texts::{CHALLENGES, LIBRARY, PAIR, PYTHON, TEN, TWO};
pub use words::words_of;
