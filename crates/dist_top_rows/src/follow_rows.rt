//! Rows of `follow` that several crates of tests take. The file `list` is JOURNAL.
use crate::{EMPTY, Row};
use dist_app::Status;
use dist_samples::{CHALLENGES, LIBRARY};

/// A library moves to a version that breaks a program, and a package of a new name comes.
pub const FOLLOWED: Row = Row {
    words: &["follow", "packages", "cert", "list"],
    packages: LIBRARY,
    list: "= upload libx 2\nPackage: libx\nVersion: 2\n\n= new\nPackage: foo\nVersion: 1\n",
    cert: Some(CHALLENGES),
    out: "steps 2\npackages 3\nbroken p=1 by libx=1 at 2\n",
    ..EMPTY
};

/// What a run that is given up comes to, but for the status and the line on `err`.
pub const STOPPED: Row = Row {
    out: "",
    ..FOLLOWED
};

/// What a bad journal comes to, but for the line on `err`.
pub const BAD_JOURNAL: Row = Row {
    status: Status::BadJournal,
    ..STOPPED
};

/// A version that is not above the one that stands.
pub const NOT_ABOVE: Row = Row {
    list: "= upload libx 1\nPackage: libx\nVersion: 1\n",
    err: "distfuture: bad journal at line 1: NotAbove\n",
    ..BAD_JOURNAL
};
