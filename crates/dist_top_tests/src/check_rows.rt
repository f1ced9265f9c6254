//! Worked rows of `check`: certificates that are accepted, refused, too large, or not read.
use crate::hold;
use dist_app::Status;
use dist_outside::What;
use dist_top_rows::check_rows::{
    BAD_LINE, MAYBE_CHALLENGED, MAYBE_OUTDATED, MISSING, REFUSED, TEN,
};
use dist_top_rows::{Failing, NOTHING, Row, Table, check_rows, first_wrong};

// Package a, which depends on b or c, and b, which depends on c, and c and d. One derived line leaves a undecided.
const UNDECIDED: Row = Row {
    packages: "Package: a\nVersion: 1\nDepends: b | c\n\nPackage: b\nVersion: 1\nDepends: c\n\nPackage: c\nVersion: 1\n\nPackage: d\nVersion: 1\n",
    cert: Some(
        "distfuture-certificate 1 strong plain 1 4 4 2\nq 1\nd 3 -1 0 1 2\nu\ny 1\nm 2 3\nq 2 -3\nf 2\ns 2 1 0 3 0\nm 3\ns 3 2 0 0\nm 4\ns 4 3 0 0\ne\n",
    ),
    status: Status::DoneWithUndecided,
    out: "report: \"strong\"
limit: 1
packages: 4
uninstallable: []
strong:
  - package: \"b=1\"
    on:
      - \"c=1\"
impact:
  - package: \"c=1\"
    of:
      - \"b=1\"
undecided:
  - \"a=1\"
undecided_pairs: []
",
    ..TEN
};

// Package a, which needs an older b than the newest one. The certificate speaks of the newest of each name.
const OUTDATED: Row = Row {
    packages: "Package: a\nVersion: 1\nDepends: b (<< 2)\n\nPackage: b\nVersion: 1\n\nPackage: b\nVersion: 2\n",
    cert: Some(
        "distfuture-certificate 1 outdated plain 10000 2 7 7\nq 2\nf 5\no 1\nq 3\nm 1 3\na 2 1\ne\n",
    ),
    out: "report: \"outdated\"
limit: 10000
packages: 2
outdated:
  - \"a=1\"
undecided: []
",
    ..TEN
};

const ON_FUTURES: &[Row] = &[
    OUTDATED,
    check_rows::CHALLENGED,
    MAYBE_OUTDATED,
    MAYBE_CHALLENGED,
];

const REFUSALS: &[Row] = &[
    BAD_LINE,
    Row {
        cert: Some(
            "distfuture-certificate 1 strong plain 10000 2 2 1\nq 1\nm 1 2\nq 1 -2\nf 2\ns 1 1 0 2 0\nq 2\nm 2\ns 2 2 0 0\ne\n",
        ),
        err: "distfuture: certificate refused at line 5: UnknownLine\n",
        ..REFUSED
    },
    Row {
        cert: Some(
            "distfuture-certificate 1 strong plain 10000 2 2 1\nq 1\nm 1 2\nq 1 -2\nf 1\ns 1 1 0 2 0\nq 2\nm 2\ns 2 2 0 0\ne",
        ),
        err: "distfuture: certificate refused at line 10: Truncated\n",
        ..REFUSED
    },
    Row {
        cert: Some(
            "distfuture-certificate 1 strong plain 10000 2 2 1\nq 1\nm 1 2\nq 1 -2\nf 1\ns 1 1 0 2 0\nq 2\nm 2\ns 2 2 0 0\n",
        ),
        err: "distfuture: certificate refused at line 10: Truncated\n",
        ..REFUSED
    },
    Row {
        cert: Some(
            "distfuture-certificate 1 strong plain 10000 2 2 1\nq 1\nm 1 2\nq 1 -2\nf 1\ns 1 1 0 0\nq 2\nm 2\ns 2 2 0 0\ne\n",
        ),
        err: "distfuture: certificate refused at line 6: Incomplete\n",
        ..REFUSED
    },
    Row {
        cert: Some("distfuture-certificate 1 strong plain 10000 2 2 2\n"),
        err: "distfuture: certificate refused at line 1: BadHeader\n",
        ..REFUSED
    },
    // The numbers are those of all packages, of which one is not the newest.
    Row {
        cert: Some("distfuture-certificate 1 outdated plain 10000 3 7 7\n"),
        status: Status::CertificateRefused,
        out: "",
        err: "distfuture: certificate refused at line 1: BadHeader\n",
        ..OUTDATED
    },
    // The archive is as it is, and b is at a later class.
    Row {
        cert: Some("distfuture-certificate 1 outdated plain 10000 2 7 7\nm 1 3 6\n"),
        status: Status::CertificateRefused,
        out: "",
        err: "distfuture: certificate refused at line 2: NotAFuture\n",
        ..OUTDATED
    },
];

const STOPPED: Row = Row {
    status: Status::TooLarge,
    out: "",
    ..TEN
};

const LIMITS: &[Row] = &[
    Row {
        at_most: Some((What::Certificate, 10)),
        err: "distfuture: too large: Certificate\n",
        ..STOPPED
    },
    Row {
        at_most: Some((What::Clauses, 0)),
        err: "distfuture: too large: Clauses\n",
        ..STOPPED
    },
    Row {
        at_most: Some((What::Lines, 0)),
        status: Status::TooLarge,
        out: "",
        err: "distfuture: too large: Lines\n",
        ..UNDECIDED
    },
    Row {
        at_most: Some((What::Variables, 6)),
        status: Status::TooLarge,
        out: "",
        err: "distfuture: too large: Variables\n",
        ..OUTDATED
    },
];

// PACKAGES is taken apart before CERT is looked for.
const BAD_BEFORE_MISSING: Row = Row {
    words: &["check", "packages", "missing"],
    packages: "Package: a\n",
    status: Status::BadPackages,
    out: "",
    err: "distfuture: bad packages at line 1: NoVersion\n",
    ..TEN
};

const FAULTS: &[Row] = &[
    MISSING,
    BAD_BEFORE_MISSING,
    Row {
        failing: Failing { out: 2, ..NOTHING },
        status: Status::WriteFault,
        out: "report: \"s",
        err: "distfuture: write fault\n",
        ..TEN
    },
];

const TABLES: &[Table] = &[
    ("certificates are accepted", &[TEN, UNDECIDED]),
    ("certificates on futures are accepted", ON_FUTURES),
    ("faults of certificates are told", REFUSALS),
    ("limits are kept", LIMITS),
    ("faults are told", FAULTS),
];

#[test]
fn certificates_are_judged(rt: HostRuntime) {
    hold(&rt, first_wrong(rt.alloc(), TABLES));
}
