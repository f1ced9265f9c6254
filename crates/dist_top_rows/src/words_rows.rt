//! Rows of words that are a command or none, which several crates of tests take.
use crate::{EMPTY, Row};
use dist_app::Status;

/// A command, and the files that it reads.
pub const COMMAND: Row = Row {
    packages: "Package: a\nVersion: 1\n",
    list: "a 1\n",
    ..EMPTY
};

/// A command with a word too few.
pub const NO_COMMAND: Row = Row {
    words: &["strong", "packages"],
    status: Status::BadWords,
    out: "",
    err: "distfuture: bad command line\n",
    ..COMMAND
};
