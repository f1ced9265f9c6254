//! The words of the command line. `clap` takes them apart, and a table says which command they are.
//!
//! The contract says what `clap` states of its matches; a new command is a line of the table.
#![tactic(auto)]

mod clap_command;
mod command;
mod error;
mod table;
mod taken;

pub use command::{
    CertFiles, Command, ExplainWords, FollowFiles, HealthFiles, RepairWords, StepsFiles,
    SweepWords, TryWords,
};
pub use error::WordsError;
pub use table::command_of;

/// To how many clusters is counted where no option says it.
pub const DEFAULT_MOST: u32 = 8;
