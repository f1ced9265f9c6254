//! Rows of `try` that several crates of tests take.
use crate::{EMPTY, Failing, NOTHING, Row};
use dist_app::Status;
use dist_outside::What;

/// Two packages. Any call of the desk would fail.
pub const TRIAL: Row = Row {
    words: &["try", "--size", "2", "--seed", "0"],
    failing: Failing { desk: 1, ..NOTHING },
    out: "size 2\nstrong 1\nuninstallable 0\noutdated 0\nchallenged 0\nundecided 0\naccepted 3\n",
    ..EMPTY
};

/// A stanza too many.
pub const STOPPED: Row = Row {
    at_most: Some((What::Stanzas, 1)),
    status: Status::TooLarge,
    out: "",
    err: "distfuture: too large: Stanzas\n",
    ..TRIAL
};
