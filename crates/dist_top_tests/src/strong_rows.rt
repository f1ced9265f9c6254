//! Worked rows of `strong`: reports, certificates, and what is left of one where the work stops.
use crate::hold;
use dist_app::Status;
use dist_outside::What;
use dist_samples::PYTHON;
use dist_top_rows::strong_rows::{CUT_SHORT, NONE, NOT_MADE, STOPPED, UNDECIDED, UNWRITTEN};
use dist_top_rows::{After, Failing, NOTHING, Row, Table, first_wrong};

const APART: &str = "Package: a\nVersion: 1\nDepends: b\n\nPackage: b\nVersion: 1\nConflicts: a\n";

const REPORTS: &[Row] = &[
    NONE,
    Row { cert: None, ..NONE },
    Row {
        packages: "Package: a\nVersion: 1\n",
        out: "report: \"strong\"
limit: 10000
packages: 1
uninstallable: []
strong: []
impact: []
undecided: []
undecided_pairs: []
",
        after: After::Begins("distfuture-certificate 1 strong plain 10000 1 1 0\n"),
        ..NONE
    },
    Row {
        packages: "Package: a
Version: 1
Depends: b | c

Package: b
Version: 1
Depends: d

Package: c
Version: 1
Depends: d

Package: d
Version: 1
",
        out: "report: \"strong\"
limit: 10000
packages: 4
uninstallable: []
strong:
  - package: \"a=1\"
    on:
      - \"d=1\"
  - package: \"b=1\"
    on:
      - \"d=1\"
  - package: \"c=1\"
    on:
      - \"d=1\"
impact:
  - package: \"d=1\"
    of:
      - \"a=1\"
      - \"b=1\"
      - \"c=1\"
undecided: []
undecided_pairs: []
",
        after: After::Begins("distfuture-certificate 1 strong plain 10000 4 4 3\n"),
        ..NONE
    },
    Row {
        packages: APART,
        out: "report: \"strong\"
limit: 10000
packages: 2
uninstallable:
  - \"a=1\"
strong: []
impact: []
undecided: []
undecided_pairs: []
",
        after: After::Begins("distfuture-certificate 1 strong plain 10000 2 2 2\n"),
        ..NONE
    },
    Row {
        packages: "Package: a\nVersion: 1\n\nPackage: a\nVersion: 2\n\nPackage: b\nVersion: 1\nDepends: a\n",
        out: "report: \"strong\"
limit: 10000
packages: 3
uninstallable: []
strong: []
impact: []
undecided: []
undecided_pairs: []
",
        after: After::Begins("distfuture-certificate 1 strong plain 10000 3 3 2\n"),
        ..NONE
    },
    // A stanza of Debian 12 alone, the needs of which nothing meets.
    Row {
        packages: PYTHON,
        out: "report: \"strong\"
limit: 10000
packages: 1
uninstallable:
  - \"python3=3.11.2-1+b1\"
strong: []
impact: []
undecided: []
undecided_pairs: []
",
        after: After::Begins("distfuture-certificate 1 strong plain 10000 1 1 3\n"),
        ..NONE
    },
];

// The calls of the desk: a start and a read that comes to the end, then the file is made (3); eight writes are the first line
// (4 to 11), one is the last line (12); then the file is closed (13).
const FAULTS: &[Row] = &[
    Row {
        words: &["strong", "missing", "cert"],
        status: Status::ReadFault,
        out: "",
        err: "distfuture: read fault\n",
        after: After::AsBefore,
        ..NONE
    },
    Row {
        failing: Failing { out: 2, ..NOTHING },
        out: "report: \"s",
        ..UNWRITTEN
    },
    NOT_MADE,
    Row {
        cert: None,
        ..NOT_MADE
    },
    Row {
        failing: Failing { desk: 4, ..NOTHING },
        after: After::Is(""),
        ..UNWRITTEN
    },
    Row {
        failing: Failing { desk: 5, ..NOTHING },
        after: After::Is("distfut"),
        ..UNWRITTEN
    },
    Row {
        failing: Failing {
            desk: 11,
            ..NOTHING
        },
        after: After::Is("distfuture-certificate 1 strong plain 10000 0 0 0"),
        ..UNWRITTEN
    },
    Row {
        failing: Failing {
            desk: 12,
            ..NOTHING
        },
        after: After::Is("distfuture-certificate 1 strong plain 10000 0 0 0\n"),
        ..UNWRITTEN
    },
    Row {
        failing: Failing {
            desk: 13,
            ..NOTHING
        },
        ..UNWRITTEN
    },
];

/// A file at the certificate's name stays as it is where the clauses are too many.
const MANY_CLAUSES: Row = Row {
    packages: APART,
    at_most: Some((What::Clauses, 1)),
    err: "distfuture: too large: Clauses\n",
    after: After::AsBefore,
    ..STOPPED
};

const LIMITS: &[Row] = &[
    CUT_SHORT,
    MANY_CLAUSES,
    Row {
        cert: None,
        ..MANY_CLAUSES
    },
];

// The twenty of them, a package that wants five, one that another package or that one meets, and the other package.
const EITHER: &str = "Package: a1\nVersion: 1\nProvides: a\nConflicts: a\n
Package: a2\nVersion: 1\nProvides: a\nConflicts: a\n
Package: a3\nVersion: 1\nProvides: a\nConflicts: a\n
Package: a4\nVersion: 1\nProvides: a\nConflicts: a\n
Package: a5\nVersion: 1\nProvides: a\nConflicts: a\n
Package: b1\nVersion: 1\nProvides: b\nConflicts: b\n
Package: b2\nVersion: 1\nProvides: b\nConflicts: b\n
Package: b3\nVersion: 1\nProvides: b\nConflicts: b\n
Package: b4\nVersion: 1\nProvides: b\nConflicts: b\n
Package: b5\nVersion: 1\nProvides: b\nConflicts: b\n
Package: c1\nVersion: 1\nProvides: c\nConflicts: c\n
Package: c2\nVersion: 1\nProvides: c\nConflicts: c\n
Package: c3\nVersion: 1\nProvides: c\nConflicts: c\n
Package: c4\nVersion: 1\nProvides: c\nConflicts: c\n
Package: c5\nVersion: 1\nProvides: c\nConflicts: c\n
Package: d1\nVersion: 1\nProvides: d\nConflicts: d\n
Package: d2\nVersion: 1\nProvides: d\nConflicts: d\n
Package: d3\nVersion: 1\nProvides: d\nConflicts: d\n
Package: d4\nVersion: 1\nProvides: d\nConflicts: d\n
Package: d5\nVersion: 1\nProvides: d\nConflicts: d\n
Package: h\nVersion: 1\nDepends: a1 | b1 | c1 | d1, a2 | b2 | c2 | d2, a3 | b3 | c3 | d3, a4 | b4 | c4 | d4, a5 | b5 | c5 | d5\n
Package: p\nVersion: 1\nDepends: q | h\n
Package: q\nVersion: 1\n";

/// A package of which nothing is known, and a pair.
const UNDECIDED_PAIR: Row = Row {
    packages: EITHER,
    out: "report: \"strong\"
limit: 1
packages: 23
uninstallable: []
strong: []
impact: []
undecided:
  - \"h=1\"
undecided_pairs:
  - package: \"p=1\"
    on:
      - \"q=1\"
",
    after: After::Begins("distfuture-certificate 1 strong plain 1 23 23 46\n"),
    ..UNDECIDED
};

// The same, with lines enough.
const DECIDED: Row = Row {
    words: &["strong", "packages", "cert", "--limit=10000"],
    status: Status::Done,
    out: "report: \"strong\"
limit: 10000
packages: 21
uninstallable:
  - \"p=1\"
strong: []
impact: []
undecided: []
undecided_pairs: []
",
    after: After::Begins("distfuture-certificate 1 strong plain 10000 21 21 45\n"),
    ..UNDECIDED
};

const TABLES: &[Table] = &[
    ("dependencies are reported", REPORTS),
    ("faults are told", FAULTS),
    ("limits are kept", LIMITS),
    (
        "questions are left undecided",
        &[UNDECIDED, DECIDED, UNDECIDED_PAIR],
    ),
];

#[test]
fn strong_dependencies_are_reported(rt: HostRuntime) {
    hold(&rt, first_wrong(rt.alloc(), TABLES));
}
