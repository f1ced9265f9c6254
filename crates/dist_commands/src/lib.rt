//! The commands: each one from its words and the files to its answer, or to why it was given up.
//!
//! A command is a chain of stages (`specs/Stages.antt`), each of which goes on or ends the run; `specs/Command.antt` joins
//! the commands. The work is that of the crates below. A change of what a command comes to begins in `specs/`.
#![tactic(auto)]

mod accepting;
mod answer;
mod cause_text;
mod check_command;
mod check_explain_command;
mod check_repair_command;
mod claims;
mod classes_command;
mod command;
mod explain_command;
mod explaining;
mod fault_text;
mod files;
mod follow_command;
mod followed;
mod health;
mod health_command;
mod journal_text;
mod later;
mod laws;
mod naming;
mod pieces;
mod refusal;
mod refusal_text;
mod repair_command;
mod repairing;
mod spaces;
mod status;
mod steps_command;
mod sweep_command;
mod try_command;

pub use answer::Answer;
pub use command::run_command;
pub use laws::{archives_have_reports, texts_have_verdicts};
pub use refusal::{Refusal, refusal_of};
pub use refusal_text::write_refusal;
pub use status::Status;
