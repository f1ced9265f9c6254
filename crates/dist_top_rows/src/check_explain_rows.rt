//! Rows of `check-explain` that several crates of tests take.
use crate::{EMPTY, Row};
use dist_app::Status;

/// Package a needs b, which conflicts with it.
pub const ENEMIES: &str =
    "Package: a\nVersion: 1\nDepends: b\n\nPackage: b\nVersion: 1\nConflicts: a\n";

/// Two relations, each of which is shown to be needed.
pub const EXPLAINED: Row = Row {
    words: &["check-explain", "packages", "cert"],
    packages: ENEMIES,
    cert: Some(
        "distfuture-explain 1 10000 2 2 1\nq 1 3 4\nf 1 2\nq 1 4\nm 1 4\nq 1 3\nm 1 2 3\ne\n",
    ),
    out: "package a=1\nbroken\nneeds a=1: b\napart a=1 b=1\n",
    ..EMPTY
};

/// What a file that is refused comes to, but for the line on `err`.
pub const REFUSED: Row = Row {
    status: Status::CertificateRefused,
    out: "",
    ..EXPLAINED
};

/// Nothing shows that the second relation is needed.
pub const INCOMPLETE: Row = Row {
    cert: Some("distfuture-explain 1 10000 2 2 1\nq 1 3 4\nf 1 2\nq 1 4\nm 1 4\nq 1 3\ne\n"),
    err: "distfuture: certificate refused at line 7: Incomplete\n",
    ..REFUSED
};
