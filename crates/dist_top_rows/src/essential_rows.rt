//! Rows of the sweeps at mode essential, and of `check` on their certificates, that several crates of tests take.
use crate::{After, EMPTY, Row, strong_rows};

/// An essential package, and p, which is in conflict with its later versions from one on.
const MOVING: &str =
    "Package: base\nVersion: 1\nEssential: yes\n\nPackage: p\nVersion: 1\nConflicts: base (>= 2)\n";

/// Each healthy installation has the essential package.
pub const STRONG: Row = Row {
    words: &["strong", "packages", "cert", "--essential"],
    packages: MOVING,
    out: "report: \"strong\"
limit: 10000
packages: 2
uninstallable: []
strong:
  - package: \"p=1\"
    on:
      - \"base=1\"
impact:
  - package: \"base=1\"
    of:
      - \"p=1\"
undecided: []
undecided_pairs: []
",
    after: After::Begins("distfuture-certificate 1 strong essential 10000 2 2 1\n"),
    ..strong_rows::NONE
};

/// The essential package may stay as it is, or be below the bound.
pub const OUTDATED: Row = Row {
    words: &["outdated", "packages", "cert", "--essential"],
    packages: MOVING,
    cert: Some("old\n"),
    out: "report: \"outdated\"
limit: 10000
packages: 2
outdated: []
undecided: []
",
    after: After::Begins("distfuture-certificate 1 outdated essential 10000 2 11 18\n"),
    ..EMPTY
};

/// It has to be there, so its versions at and above the bound break p.
pub const CHALLENGED: Row = Row {
    words: &["challenged", "packages", "cert", "--essential"],
    out: "report: \"challenged\"
limit: 10000
packages: 2
uninstallable: []
challenged:
  - cluster: \"base=1\"
    class: \"= 2\"
    example: \"2\"
    breaks:
      - \"p=1\"
  - cluster: \"base=1\"
    class: \">> 2\"
    example: \"2-0A\"
    breaks:
      - \"p=1\"
undecided: []
undecided_classes: []
",
    after: After::Begins("distfuture-certificate 1 challenged essential 10000 2 11 18\n"),
    ..OUTDATED
};

/// A certificate of strong dependencies at that mode.
pub const CHECK_STRONG: Row = Row {
    words: &["check", "packages", "cert"],
    cert: Some(
        "distfuture-certificate 1 strong essential 10000 2 2 1\nm 1\ns 1 1 0 0\nm 1 2\nq 2 -1\nf 1\ns 2 2 0 1 0\ne\n",
    ),
    after: After::AsBefore,
    ..STRONG
};

/// One of outdated packages.
pub const CHECK_OUTDATED: Row = Row {
    words: &["check", "packages", "cert"],
    cert: Some(
        "distfuture-certificate 1 outdated essential 10000 2 11 18\nm 1 2\na 1 1\nm 1 2 3\na 2 2\ne\n",
    ),
    after: After::AsBefore,
    ..OUTDATED
};

/// One of challenges.
pub const CHECK_CHALLENGED: Row = Row {
    words: &["check", "packages", "cert"],
    cert: Some(
        "distfuture-certificate 1 challenged essential 10000 2 11 18\nq 1 2\nm 1 2\nc 1 1 0 0\nq 1 3\nm 1 2 3\nq 3 4\nm 3 4 5\nq 3 6\nf 1 3 5 6 9 10 11 12 15 18\nq 3 8\nf 2 3 5 7 8 10 11 13 16 18\nc 2 3 0 1 2 1 3 0\ne\n",
    ),
    after: After::AsBefore,
    ..CHALLENGED
};
