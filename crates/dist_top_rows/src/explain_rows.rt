//! Rows of `explain` that several crates of tests take.
use crate::check_explain_rows::ENEMIES;
use crate::{After, EMPTY, Row};
use dist_app::Status;

/// Two relations keep a package from being installed, and both are needed.
pub const EXPLAINED: Row = Row {
    words: &["explain", "packages", "cert", "--package", "a=1"],
    packages: ENEMIES,
    out: "package a=1\nbroken\nneeds a=1: b\napart a=1 b=1\n",
    after: After::Begins("distfuture-explain 1 10000 2 2 1\nq 1 3 4\nf "),
    ..EMPTY
};

/// No package has that version.
pub const NO_SUCH_PACKAGE: Row = Row {
    words: &["explain", "packages", "cert", "--package", "a=2"],
    packages: "Package: a\nVersion: 1\n",
    status: Status::NoSuchPackage,
    out: "",
    err: "distfuture: no such package\n",
    after: After::AsBefore,
    ..EMPTY
};
