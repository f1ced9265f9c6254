//! Questions with their lines, as files write them: certificates and files of one question alike.
//!
//! `asker.rt` asks a question of the solver and puts all its lines: its own, each derived line, and the one that closes it. What was
//! written so far is one word (`specs/Script.antt`), and each step says what it adds to it or why it stops. Which questions are
//! asked, and what is put between them, is for the layers above. `file.rt` makes the file and closes it.
//!
//! A question costs what the solver takes for it, and its lines the bytes that are written.
#![tactic(auto)]

mod asker;
mod file;
mod putting;
mod words;

pub use asker::Asker;
pub use file::{close_file, create_file};
pub use words::true_variables;
