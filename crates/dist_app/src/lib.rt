//! The top call: a command from its words to its status. Its contract is the program's theorem.
//!
//! `specs/Run.antt` says what a run comes to, `specs/Truth.antt` that what it tells is true, `specs/Headline.antt` what
//! is proved of the files that it reads and writes, and `specs/Complete.antt` what it comes to where nothing is in its
//! way. The commands are those of dist_commands.
#![tactic(auto)]

mod laws;
mod top_call;

pub use dist_commands::Status;
pub use laws::runs_are_complete;
pub use top_call::{run, run_with};
