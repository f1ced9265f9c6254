//! The outside: sinks that take text, desks that have files, what can go wrong there, and the limits of a run.
//!
//! What a device told is a ghost: clauses on contents hold where it is told, clauses on causes hold always, by counts that
//! never fall. The adapters over the system are a few lines and tell nothing; they are the trusted edge. Pieces of `PIECE`
//! bytes go through one buffer. The desk in memory looks names up one by one: it is for tests and trials.
#![tactic(auto)]

mod desk;
mod laws;
mod limits;
mod memory_desk;
mod memory_sink;
mod named_files;
mod real_desk;
mod sink;
mod std_answers;
mod std_sink;
mod trouble;
mod whole;

pub use desk::Desk;
pub use laws::{desk_only_reads, file_grows, file_holds, sink_grows};
pub use limits::Limits;
pub use memory_desk::MemoryDesk;
pub use memory_sink::MemorySink;
pub use real_desk::RealDesk;
pub use sink::Sink;
pub use std_sink::StdSink;
pub use trouble::{Trouble, What, WorkError};
pub use whole::{desk_write_whole, read_whole, write_whole};

/// How many bytes of a file are moved at once.
pub const PIECE: usize = 65_536;
