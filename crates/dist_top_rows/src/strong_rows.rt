//! Rows of `strong` that several crates of tests take.
use crate::{After, EMPTY, Failing, NOTHING, Row};
use dist_app::Status;
use dist_outside::What;
use dist_samples as samples;

/// No packages, and a file at the certificate's name.
pub const NONE: Row = Row {
    words: &["strong", "packages", "cert", "--limit=10000"],
    cert: Some("old\n"),
    out: "report: \"strong\"
limit: 10000
packages: 0
uninstallable: []
strong: []
impact: []
undecided: []
undecided_pairs: []
",
    after: After::Is("distfuture-certificate 1 strong plain 10000 0 0 0\ne\n"),
    ..EMPTY
};

/// What is reported of a package that depends on another.
pub const REPORT: &str = "report: \"strong\"
limit: 10000
packages: 2
uninstallable: []
strong:
  - package: \"a=1\"
    on:
      - \"b=1\"
impact:
  - package: \"b=1\"
    of:
      - \"a=1\"
undecided: []
undecided_pairs: []
";

/// A package that depends on another.
pub const TWO: Row = Row {
    packages: samples::TWO,
    out: REPORT,
    after: After::Is(
        "distfuture-certificate 1 strong plain 10000 2 2 1\nq 1\nm 1 2\nq 1 -2\nf 1\ns 1 1 0 2 0\nq 2\nm 2\ns 2 1 2 0 0\ne\n",
    ),
    ..NONE
};

/// The file is made and written whole, and not closed.
pub const UNWRITTEN: Row = Row {
    status: Status::WriteFault,
    out: "",
    err: "distfuture: write fault\n",
    ..NONE
};

/// The file is not made.
pub const NOT_MADE: Row = Row {
    failing: Failing { desk: 3, ..NOTHING },
    after: After::AsBefore,
    ..UNWRITTEN
};

/// What a number that is passed comes to, but for the line on `err`.
pub const STOPPED: Row = Row {
    status: Status::TooLarge,
    out: "",
    ..NONE
};

/// A certificate that would pass its limit with its last line.
pub const CUT_SHORT: Row = Row {
    at_most: Some((What::Certificate, 51)),
    err: "distfuture: too large: Certificate\n",
    after: After::Is("distfuture-certificate 1 strong plain 10000 0 0 0\n"),
    ..STOPPED
};

/// Five packages in each of four groups, of which a set may have one, and a package that wants five of them.
pub const GROUPS: &str = "Package: a1\nVersion: 1\nProvides: a\nConflicts: a\n
Package: a2\nVersion: 1\nProvides: a\nConflicts: a\n
Package: a3\nVersion: 1\nProvides: a\nConflicts: a\n
Package: a4\nVersion: 1\nProvides: a\nConflicts: a\n
Package: a5\nVersion: 1\nProvides: a\nConflicts: a\n
Package: b1\nVersion: 1\nProvides: b\nConflicts: b\n
Package: b2\nVersion: 1\nProvides: b\nConflicts: b\n
Package: b3\nVersion: 1\nProvides: b\nConflicts: b\n
Package: b4\nVersion: 1\nProvides: b\nConflicts: b\n
Package: b5\nVersion: 1\nProvides: b\nConflicts: b\n
Package: c1\nVersion: 1\nProvides: c\nConflicts: c\n
Package: c2\nVersion: 1\nProvides: c\nConflicts: c\n
Package: c3\nVersion: 1\nProvides: c\nConflicts: c\n
Package: c4\nVersion: 1\nProvides: c\nConflicts: c\n
Package: c5\nVersion: 1\nProvides: c\nConflicts: c\n
Package: d1\nVersion: 1\nProvides: d\nConflicts: d\n
Package: d2\nVersion: 1\nProvides: d\nConflicts: d\n
Package: d3\nVersion: 1\nProvides: d\nConflicts: d\n
Package: d4\nVersion: 1\nProvides: d\nConflicts: d\n
Package: d5\nVersion: 1\nProvides: d\nConflicts: d\n
Package: p\nVersion: 1\nDepends: a1 | b1 | c1 | d1, a2 | b2 | c2 | d2, a3 | b3 | c3 | d3, a4 | b4 | c4 | d4, a5 | b5 | c5 | d5\n";

/// A question that is left undecided after one line.
pub const UNDECIDED: Row = Row {
    words: &["strong", "packages", "cert", "--limit=1"],
    packages: GROUPS,
    status: Status::DoneWithUndecided,
    out: "report: \"strong\"
limit: 1
packages: 21
uninstallable: []
strong: []
impact: []
undecided:
  - \"p=1\"
undecided_pairs: []
",
    after: After::Begins("distfuture-certificate 1 strong plain 1 21 21 45\n"),
    ..NONE
};
