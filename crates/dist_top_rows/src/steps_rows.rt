//! Rows of `steps` that several crates of tests take. The file `list` is LATER.
use crate::{EMPTY, Row};
use dist_app::Status;
use dist_samples::LIBRARY;

/// A library moves, a package goes, and one of a new name comes.
pub const MOVED: Row = Row {
    words: &["steps", "packages", "list"],
    packages: LIBRARY,
    list: "Package: libx\nVersion: 2\n\nPackage: foo\nVersion: 1\n",
    out: "upload libx=1 at 2: libx\nremoval p\nnew foo=1\n",
    ..EMPTY
};

/// A package of the same version with another dependency.
pub const MISFIT: Row = Row {
    list: "Package: libx\nVersion: 1\nDepends: p\n",
    status: Status::NotAFuture,
    out: "not a future at libx=1\n",
    ..MOVED
};

/// What a run that is given up comes to, but for the status and the line on `err`.
pub const STOPPED: Row = Row { out: "", ..MOVED };
