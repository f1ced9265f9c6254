//! Rows of `repair` and of `check-repair` that several crates of tests take.
use crate::{After, EMPTY, Row};
use dist_app::Status;

/// A program that needs a library at a later version.
pub const LATER: &str =
    "Package: libx\nVersion: 1\n\nPackage: p\nVersion: 1\nDepends: libx (= 2)\n";

/// The library must move.
pub const REPAIRED: Row = Row {
    words: &["repair", "packages", "cert", "--package", "p=1"],
    packages: LATER,
    out: "package p=1\nleast 1\nmove libx=1 to 2\n",
    after: After::Begins("distfuture-repair 1 10000 2 "),
    ..EMPTY
};

/// A file with a counter up to none, which shows that one must move.
pub const CHECKED: Row = Row {
    words: &["check-repair", "packages", "cert"],
    cert: Some(
        "distfuture-repair 1 10000 2 15 23 2 0\nq 3 -15\nf 12 7 18 21 22\nm 3 6 7 12 14 15\ne\n",
    ),
    after: After::AsBefore,
    ..REPAIRED
};

/// What a file that is refused comes to, but for the line on `err`.
pub const REFUSED: Row = Row {
    status: Status::CertificateRefused,
    out: "",
    ..CHECKED
};

/// Nothing shows that some must move.
pub const INCOMPLETE: Row = Row {
    cert: Some("distfuture-repair 1 10000 2 15 23 2 0\nq 3 -15\nm 3 6 7 12 14 15\ne\n"),
    err: "distfuture: certificate refused at line 4: Incomplete\n",
    ..REFUSED
};
