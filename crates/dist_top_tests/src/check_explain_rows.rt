//! Worked rows of `check-explain`: what files of explanations answer, and why they are refused.
use crate::hold;
use dist_app::Status;
use dist_outside::What;
use dist_top_rows::check_explain_rows::{EXPLAINED, INCOMPLETE, REFUSED};
use dist_top_rows::{Failing, NOTHING, Row, Table, first_wrong};

/// Package a needs b or c, each of which needs d.
const FORK: &str =
    "Package: a\nVersion: 1\nDepends: b | c\n\nPackage: b\nVersion: 1\nDepends: d\n\nPackage: c\nVersion: 1\nDepends: d\n\nPackage: d\nVersion: 1\n";

/// The same, and d conflicts with a.
const CLOSED_FORK: &str =
    "Package: a\nVersion: 1\nDepends: b | c\n\nPackage: b\nVersion: 1\nDepends: d\n\nPackage: c\nVersion: 1\nDepends: d\n\nPackage: d\nVersion: 1\nConflicts: a\n";

const ANSWERS: &[Row] = &[
    EXPLAINED,
    // All versions count, and a package is told with its own.
    Row {
        packages: "Package: a\nVersion: 1\nDepends: b\n\nPackage: a\nVersion: 2\n",
        cert: Some("distfuture-explain 1 7 2 2 1\nq 1 3 4\nf 1\nq 1 3\nf 1\nm 1 4\ne\n"),
        out: "package a=1\nbroken\nneeds a=1: b\n",
        ..EXPLAINED
    },
    Row {
        packages: "Package: a\nVersion: 1\n",
        cert: Some("distfuture-explain 1 10000 1 0 1\nq 1\nm 1\ne\n"),
        out: "package a=1\ninstallable\n",
        ..EXPLAINED
    },
    // One derived line leaves the question of all relations undecided.
    Row {
        packages: FORK,
        cert: Some("distfuture-explain 1 1 4 3 1\nq 1 5 6 7\nd 4 -1 -5 -6 -7 0 2 3 1\nu\ne\n"),
        status: Status::DoneWithUndecided,
        out: "package a=1\nundecided\n",
        ..EXPLAINED
    },
    // The first three relations are needed, and of the fourth that is undecided.
    Row {
        packages: CLOSED_FORK,
        cert: Some(
            "distfuture-explain 1 1 4 4 1\nq 1 5 6 7 8\nf 4 2 3 1\nm 1 6 7 8\nm 1 2 5 7 8\nm 1 3 5 6 8\nq 1 5 6 7\nd 4 -1 -5 -6 -7 0 2 3 1\nu\ne\n",
        ),
        status: Status::DoneWithUndecided,
        out: "package a=1\nbroken\nneeds a=1: b | c\nneeds b=1: d\nneeds c=1: d\nperhaps apart a=1 d=1\n",
        ..EXPLAINED
    },
];

const REFUSALS: &[Row] = &[
    INCOMPLETE,
    Row {
        cert: Some("distfuture-explain 1 10000 2 3 1\ne\n"),
        err: "distfuture: certificate refused at line 1: BadHeader\n",
        ..REFUSED
    },
    Row {
        cert: Some("distfuture-explain 1 10000 2 2 3\ne\n"),
        err: "distfuture: certificate refused at line 1: BadHeader\n",
        ..REFUSED
    },
    Row {
        cert: Some("distfuture-certificate 1 strong plain 10000 2 2 2\ne\n"),
        err: "distfuture: certificate refused at line 1: BadHeader\n",
        ..REFUSED
    },
    Row {
        cert: Some("distfuture-explain 1 10000 2 2 1\nq 1 3 4\nf 1 2\nx 1\ne\n"),
        err: "distfuture: certificate refused at line 4: WrongClaim\n",
        ..REFUSED
    },
    Row {
        cert: Some("distfuture-explain 1 10000 2 2 1\nm 1 3 4\ne\n"),
        err: "distfuture: certificate refused at line 2: NotAnInstallation\n",
        ..REFUSED
    },
    Row {
        cert: Some("distfuture-explain 1 10000 2 2 1\nq 1 3 4\nf 1 2"),
        err: "distfuture: certificate refused at line 3: Truncated\n",
        ..REFUSED
    },
    Row {
        cert: Some("distfuture-explain 1 10000 2 2 1\nq 1 3 4\nf 2\ne\n"),
        err: "distfuture: certificate refused at line 3: BadLine\n",
        ..REFUSED
    },
];

/// What a run that passes a number comes to, but for the line on `err`.
const TOO_LARGE: Row = Row {
    status: Status::TooLarge,
    ..REFUSED
};

const STOPS: &[Row] = &[
    // PACKAGES comes first.
    Row {
        packages: "no colon\n",
        cert: Some("x\n"),
        status: Status::BadPackages,
        err: "distfuture: bad packages at line 1: NoColon\n",
        ..REFUSED
    },
    Row {
        at_most: Some((What::Clauses, 1)),
        err: "distfuture: too large: Clauses\n",
        ..TOO_LARGE
    },
    // There is a variable for each relation.
    Row {
        at_most: Some((What::Variables, 3)),
        err: "distfuture: too large: Variables\n",
        ..TOO_LARGE
    },
    // And a literal.
    Row {
        at_most: Some((What::Literals, 5)),
        err: "distfuture: too large: Literals\n",
        ..TOO_LARGE
    },
    Row {
        at_most: Some((What::Certificate, 40)),
        err: "distfuture: too large: Certificate\n",
        ..TOO_LARGE
    },
    Row {
        words: &["check-explain", "packages", "missing"],
        status: Status::ReadFault,
        err: "distfuture: read fault\n",
        ..REFUSED
    },
    Row {
        failing: Failing { out: 2, ..NOTHING },
        status: Status::WriteFault,
        out: "package a=",
        err: "distfuture: write fault\n",
        ..REFUSED
    },
];

const TABLES: &[Table] = &[
    ("answers are told", ANSWERS),
    ("files are refused", REFUSALS),
    ("stops are told", STOPS),
];

#[test]
fn explanations_are_checked(rt: HostRuntime) {
    hold(&rt, first_wrong(rt.alloc(), TABLES));
}
