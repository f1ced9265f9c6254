//! Journals: texts that tell the steps of an archive, one after another, each with the packages that it brings.
//!
//! A journal is read from its front to its end: each line is found once, and its block is read by the reader of Packages files.
//! No byte is copied but into packages. `specs/Journal.antt` says what the form of a journal is, `specs/Faults.antt` what is
//! wrong with an entry and which fault comes first, `specs/Follow.antt` what is left of the archive.
#![tactic(auto)]

mod breaking;
mod broken_list;
mod cutting;
mod fault;
mod following;
mod laws;
mod reading;
mod step_line;

pub use breaking::broken;
pub use broken_list::{Broken, BrokenList};
pub use fault::{FollowError, JournalFault};
pub use following::follow;
pub use laws::journals_have_one_end;
