//! Rows of `check` that several crates of tests take.
use crate::strong_rows::REPORT;
use crate::{After, EMPTY, Row, futures_rows};
use dist_app::Status;
use dist_samples as samples;

/// Ten lines that are accepted.
pub const TEN: Row = Row {
    words: &["check", "packages", "cert"],
    packages: samples::TWO,
    cert: Some(samples::TEN),
    out: REPORT,
    ..EMPTY
};

/// A certificate of outdated packages.
pub const OUTDATED: Row = Row {
    words: &["check", "packages", "cert"],
    cert: Some(
        "distfuture-certificate 1 outdated plain 10000 2 11 16\nq 2\nm 2\na 1 1\nm 3 4 5\na 2 2\ne\n",
    ),
    after: After::AsBefore,
    ..futures_rows::OUTDATED
};

/// One of challenges.
pub const CHALLENGED: Row = Row {
    words: &["check", "packages", "cert"],
    cert: Some(samples::CHALLENGES),
    after: After::AsBefore,
    ..futures_rows::CHALLENGED
};

/// What a refused certificate comes to, but for the line on `err`.
pub const REFUSED: Row = Row {
    status: Status::CertificateRefused,
    out: "",
    ..TEN
};

/// A question that is closed without a clause.
pub const BAD_LINE: Row = Row {
    cert: Some(
        "distfuture-certificate 1 strong plain 10000 2 2 1\nq 1\nm 1 2\nq 1 -2\nf\ns 1 1 0 2 0\nq 2\nm 2\ns 2 2 0 0\ne\n",
    ),
    err: "distfuture: certificate refused at line 5: BadLine\n",
    ..REFUSED
};

/// A variable above the last, at a kind on futures.
pub const BEYOND: Row = Row {
    packages: samples::LIBRARY,
    cert: Some("distfuture-certificate 1 challenged plain 10000 2 11 16\nq 1 12\n"),
    err: "distfuture: certificate refused at line 2: OutOfRange\n",
    ..REFUSED
};

/// No certificate of that name.
pub const MISSING: Row = Row {
    words: &["check", "packages", "missing"],
    status: Status::ReadFault,
    out: "",
    err: "distfuture: read fault\n",
    ..TEN
};

/// Package a, which needs b or c as they are, b, which needs c, and c and d. One derived line leaves it undecided whether a is
/// outdated.
pub const MAYBE_OUTDATED: Row = Row {
    packages: "Package: a\nVersion: 1\nDepends: b (= 1) | c (= 1)\n\nPackage: b\nVersion: 1\nDepends: c (= 1)\n\nPackage: c\nVersion: 1\n\nPackage: d\nVersion: 1\n",
    cert: Some(
        "distfuture-certificate 1 outdated plain 1 4 13 14\nq 2\nd 4 -2 0 9 10\nu\ny 1\nm 1 3 4\na 2 1\na 3 1\nm 1 5\na 4 2\ne\n",
    ),
    status: Status::DoneWithUndecided,
    out: "report: \"outdated\"
limit: 1
packages: 4
outdated: []
undecided:
  - \"a=1\"
",
    ..TEN
};

/// A later c breaks a and b. One derived line leaves it undecided whether a later d breaks a.
pub const MAYBE_CHALLENGED: Row = Row {
    cert: Some(
        "distfuture-certificate 1 challenged plain 1 4 13 14\nm 1 2 4 5\nq 2 10\nf 5 10 9\nq 2 12\nd 4 -2 0 9 10\nu\nc 1 1 0 3 1 0 4 1\nm 1 3 4\nq 3 10\nf 5 10\nc 2 2 0 3 1 0\nm 1 4\nc 3 3 0 0\nm 1 5\nc 4 4 0 0\ne\n",
    ),
    out: "report: \"challenged\"
limit: 1
packages: 4
uninstallable: []
challenged:
  - cluster: \"c=1\"
    class: \">> 1\"
    example: \"1-0A\"
    breaks:
      - \"a=1\"
      - \"b=1\"
undecided: []
undecided_classes:
  - cluster: \"d=1\"
    class: \">> 1\"
    example: \"1-0A\"
    breaks:
      - \"a=1\"
",
    ..MAYBE_OUTDATED
};
