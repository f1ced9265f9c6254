//! Files of one question: from the first line to the end, with the lines of each question that is asked on the way.
//!
//! `file.rt` makes the file and puts its first line and its end, and between them a search asks; `noting.rt` asks a question and notes
//! what it finds. Which questions are asked is for the layer above: it chooses them by the answers so far, and ends once what was
//! found decides its answer.
#![tactic(auto)]

mod file;
mod inquiring;
mod noting;

pub use file::write_inquiry;
pub use inquiring::Inquiring;
pub use noting::{ask_and_note, refute_and_note};
