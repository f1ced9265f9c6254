//! Worked rows of `repair` and of `check-repair`: how many clusters must move, and why files are refused.
use crate::hold;
use dist_app::Status;
use dist_outside::What;
use dist_top_rows::repair_rows::{CHECKED, INCOMPLETE, REFUSED, REPAIRED};
use dist_top_rows::strong_rows::GROUPS;
use dist_top_rows::{After, Row, Table, first_wrong};

/// A program that needs two packages at later versions.
const TWO_LATER: &str =
    "Package: a\nVersion: 1\n\nPackage: b\nVersion: 1\n\nPackage: p\nVersion: 1\nDepends: a (= 2), b (= 2)\n";

/// The same two of one source.
const ONE_SOURCE: &str =
    "Package: a\nVersion: 1\nSource: s\n\nPackage: b\nVersion: 1\nSource: s\n\nPackage: p\nVersion: 1\nDepends: a (= 2), b (= 2)\n";

/// Five packages in each of three groups, of which a set may have one, and a package that wants five of them: two must move.
const TWO_TOO_MANY: &str = "Package: a1\nVersion: 1\nProvides: a\nConflicts: a\n
Package: a2\nVersion: 1\nProvides: a\nConflicts: a\n
Package: a3\nVersion: 1\nProvides: a\nConflicts: a\n
Package: a4\nVersion: 1\nProvides: a\nConflicts: a\n
Package: a5\nVersion: 1\nProvides: a\nConflicts: a\n
Package: b1\nVersion: 1\nProvides: b\nConflicts: b\n
Package: b2\nVersion: 1\nProvides: b\nConflicts: b\n
Package: b3\nVersion: 1\nProvides: b\nConflicts: b\n
Package: b4\nVersion: 1\nProvides: b\nConflicts: b\n
Package: b5\nVersion: 1\nProvides: b\nConflicts: b\n
Package: c1\nVersion: 1\nProvides: c\nConflicts: c\n
Package: c2\nVersion: 1\nProvides: c\nConflicts: c\n
Package: c3\nVersion: 1\nProvides: c\nConflicts: c\n
Package: c4\nVersion: 1\nProvides: c\nConflicts: c\n
Package: c5\nVersion: 1\nProvides: c\nConflicts: c\n
Package: p\nVersion: 1\nDepends: a1 | b1 | c1, a2 | b2 | c2, a3 | b3 | c3, a4 | b4 | c4, a5 | b5 | c5\n";

/// What a hundred derived lines are enough for.
const CLOSED: Row = Row {
    words: &[
        "repair",
        "packages",
        "cert",
        "--package",
        "p=1",
        "--limit",
        "100",
    ],
    packages: TWO_TOO_MANY,
    out: "package p=1\nleast 2\nmove a1=1 to 1-0A\nmove a2=1 to 1-0A\n",
    after: After::Begins("distfuture-repair 1 100 16 "),
    ..REPAIRED
};

/// Two packages must move.
const TWO_MOVE: Row = Row {
    packages: TWO_LATER,
    out: "package p=1\nleast 2\nmove a=1 to 2\nmove b=1 to 2\n",
    after: After::Begins("distfuture-repair 1 10000 3 "),
    ..REPAIRED
};

const REPAIRS: &[Row] = &[
    // So few derived lines leave the number undecided.
    Row {
        words: &[
            "repair",
            "packages",
            "cert",
            "--package",
            "p=1",
            "--limit",
            "1",
        ],
        packages: GROUPS,
        status: Status::DoneWithUndecided,
        out: "package p=1\nat least 0\nundecided\nat most 1\nmove a1=1 to 1-0A\n",
        after: After::Begins("distfuture-repair 1 1 21 "),
        ..REPAIRED
    },
    REPAIRED,
    TWO_MOVE,
    CLOSED,
    // With ten the upper bound is the least, and the lower one is not shown.
    Row {
        words: &[
            "repair",
            "packages",
            "cert",
            "--package",
            "p=1",
            "--limit",
            "10",
        ],
        status: Status::DoneWithUndecided,
        out: "package p=1\nat least 1\nundecided\nat most 2\nmove a1=1 to 1-0A\nmove a2=1 to 1-0A\n",
        after: After::Begins("distfuture-repair 1 10 16 "),
        ..CLOSED
    },
    // A version that an atom names comes before an invented one.
    Row {
        packages: "Package: p\nVersion: 1\nDepends: x (>> 1)\n\nPackage: q\nVersion: 1\nDepends: x (<< 3)\n\nPackage: x\nVersion: 1\n",
        out: "package p=1\nleast 1\nmove x=1 to 3\n",
        after: After::Begins("distfuture-repair 1 10000 3 "),
        ..REPAIRED
    },
    // Packages of one source move together.
    Row {
        packages: ONE_SOURCE,
        out: "package p=1\nleast 1\nmove a=1 to 2\n",
        ..TWO_MOVE
    },
    Row {
        words: &["repair", "packages", "cert", "--package", "a=1"],
        packages: "Package: a\nVersion: 1\n",
        out: "package a=1\nleast 0\n",
        after: After::Begins("distfuture-repair 1 10000 1 "),
        ..REPAIRED
    },
    Row {
        packages: "Package: foo\nVersion: 2\n\nPackage: p\nVersion: 1\nDepends: foo (<< 1)\n",
        out: "package p=1\noutdated\n",
        ..REPAIRED
    },
    // Nothing is counted.
    Row {
        words: &[
            "repair",
            "packages",
            "cert",
            "--package",
            "p=1",
            "--most",
            "0",
        ],
        out: "package p=1\nat least 1\nat most 2\nmove a=1 to 2\nmove b=1 to 2\n",
        ..TWO_MOVE
    },
    // The newest versions alone count.
    Row {
        packages: "Package: libx\nVersion: 1\n\nPackage: p\nVersion: 0\n\nPackage: p\nVersion: 1\nDepends: libx (= 2)\n",
        ..REPAIRED
    },
];

/// What a run that is given up before CERT is made comes to, but for the status and the line on `err`.
const STOPPED: Row = Row {
    out: "",
    after: After::AsBefore,
    ..REPAIRED
};

const STOPS: &[Row] = &[
    Row {
        words: &["repair", "packages", "cert", "--package", "p=2"],
        status: Status::NoSuchPackage,
        err: "distfuture: no such package\n",
        ..STOPPED
    },
    // A version that is not the newest is no package of the space, and that is told before there is any.
    Row {
        words: &["repair", "packages", "cert", "--package", "p=0"],
        packages: "Package: libx\nVersion: 1\n\nPackage: p\nVersion: 0\n\nPackage: p\nVersion: 1\nDepends: libx (= 2)\n",
        at_most: Some((What::Variables, 0)),
        status: Status::NoSuchPackage,
        err: "distfuture: no such package\n",
        ..STOPPED
    },
    Row {
        at_most: Some((What::Variables, 12)),
        status: Status::TooLarge,
        err: "distfuture: too large: Variables\n",
        ..STOPPED
    },
    Row {
        words: &[
            "repair",
            "packages",
            "cert",
            "--package",
            "p=1",
            "--most",
            "65",
        ],
        status: Status::BadWords,
        err: "distfuture: bad command line\n",
        ..STOPPED
    },
];

const CHECKS: &[Row] = &[
    CHECKED,
    INCOMPLETE,
    Row {
        cert: Some("distfuture-repair 1 10000 2 15 23 2 1\ne\n"),
        err: "distfuture: certificate refused at line 1: BadHeader\n",
        ..REFUSED
    },
    // The space comes before CERT is read.
    Row {
        cert: Some("x\n"),
        at_most: Some((What::Variables, 3)),
        status: Status::TooLarge,
        err: "distfuture: too large: Variables\n",
        ..REFUSED
    },
    Row {
        words: &["check-repair", "packages", "missing"],
        status: Status::ReadFault,
        err: "distfuture: read fault\n",
        ..REFUSED
    },
];

const TABLES: &[Table] = &[
    ("repairs are told", REPAIRS),
    ("stops are told", STOPS),
    ("files are checked", CHECKS),
];

#[test]
fn packages_are_repaired(rt: HostRuntime) {
    hold(&rt, first_wrong(rt.alloc(), TABLES));
}
