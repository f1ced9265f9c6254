//! Worked rows of `explain`: what is told of a package, and which packages are named.
use crate::hold;
use dist_app::Status;
use dist_outside::What;
use dist_top_rows::explain_rows::{EXPLAINED, NO_SUCH_PACKAGE};
use dist_top_rows::strong_rows::GROUPS;
use dist_top_rows::{After, Failing, NOTHING, Row, Table, first_wrong};

/// What is told of a package that wants one of each of five sets, where only four packages may stand together.
const ALL_RELATIONS: &str = "package p=1\nbroken
needs p=1: a1 | b1 | c1 | d1
needs p=1: a2 | b2 | c2 | d2
needs p=1: a3 | b3 | c3 | d3
needs p=1: a4 | b4 | c4 | d4
needs p=1: a5 | b5 | c5 | d5
apart a1=1 a2=1
apart a1=1 a3=1
apart a1=1 a4=1
apart a1=1 a5=1
apart a2=1 a3=1
apart a2=1 a4=1
apart a2=1 a5=1
apart a3=1 a4=1
apart a3=1 a5=1
apart a4=1 a5=1
apart b1=1 b2=1
apart b1=1 b3=1
apart b1=1 b4=1
apart b1=1 b5=1
apart b2=1 b3=1
apart b2=1 b4=1
apart b2=1 b5=1
apart b3=1 b4=1
apart b3=1 b5=1
apart b4=1 b5=1
apart c1=1 c2=1
apart c1=1 c3=1
apart c1=1 c4=1
apart c1=1 c5=1
apart c2=1 c3=1
apart c2=1 c4=1
apart c2=1 c5=1
apart c3=1 c4=1
apart c3=1 c5=1
apart c4=1 c5=1
apart d1=1 d2=1
apart d1=1 d3=1
apart d1=1 d4=1
apart d1=1 d5=1
apart d2=1 d3=1
apart d2=1 d4=1
apart d2=1 d5=1
apart d3=1 d4=1
apart d3=1 d5=1
apart d4=1 d5=1
";

/// A program that needs two, which are each kept out by a name that nobody has, one of them through two others.
const TWO_CAUSES: &str = "Package: a
Version: 1
Depends: gone

Package: b
Version: 1
Depends: a

Package: c
Version: 1
Depends: b

Package: d
Version: 1
Depends: lost

Package: p
Version: 1
Depends: c, d
";

const ANSWERS: &[Row] = &[
    EXPLAINED,
    // A package that nobody needs for it leaves no relation.
    Row {
        packages: "Package: a\nVersion: 1\nDepends: b\n\nPackage: b\nVersion: 1\nConflicts: a\n\nPackage: z\nVersion: 1\nDepends: a\n",
        after: After::Begins("distfuture-explain 1 10000 3 3 1\nq 1 4 5 6\nf "),
        ..EXPLAINED
    },
    // Of two causes the shorter one is told.
    Row {
        words: &["explain", "packages", "cert", "--package", "p=1"],
        packages: TWO_CAUSES,
        out: "package p=1\nbroken\nneeds d=1: lost\nneeds p=1: d\n",
        after: After::Begins("distfuture-explain 1 10000 5 6 5\nq 5 6 7 8 9 10 11\nf "),
        ..EXPLAINED
    },
    Row {
        packages: "Package: a\nVersion: 1\n",
        out: "package a=1\ninstallable\n",
        after: After::Begins("distfuture-explain 1 10000 1 0 1\nq 1\nm 1\n"),
        ..EXPLAINED
    },
    // A version that is equal names the package, and older versions count.
    Row {
        words: &[
            "explain",
            "--package=a=0:1",
            "packages",
            "cert",
            "--limit=7",
        ],
        packages: "Package: a\nVersion: 1\nDepends: b\n\nPackage: a\nVersion: 2\n",
        out: "package a=1\nbroken\nneeds a=1: b\n",
        after: After::Begins("distfuture-explain 1 7 2 2 1\nq 1 3 4\nf "),
        ..EXPLAINED
    },
    // So few derived lines leave it undecided.
    Row {
        words: &[
            "explain",
            "packages",
            "cert",
            "--package",
            "p=1",
            "--limit",
            "1",
        ],
        packages: GROUPS,
        status: Status::DoneWithUndecided,
        out: "package p=1\nundecided\n",
        after: After::Begins("distfuture-explain 1 1 21 45 21\n"),
        ..EXPLAINED
    },
    Row {
        words: &["explain", "packages", "cert", "--package", "p=1"],
        packages: GROUPS,
        out: ALL_RELATIONS,
        after: After::Begins("distfuture-explain 1 10000 21 45 21\n"),
        ..EXPLAINED
    },
];

const NAMES: &[Row] = &[
    NO_SUCH_PACKAGE,
    Row {
        words: &["explain", "packages", "cert", "--package", "a"],
        ..NO_SUCH_PACKAGE
    },
    Row {
        words: &["explain", "packages", "cert", "--package", "a=1_"],
        ..NO_SUCH_PACKAGE
    },
    Row {
        words: &["explain", "packages", "cert", "--package", "b=1"],
        ..NO_SUCH_PACKAGE
    },
    // It comes before the clauses are made.
    Row {
        at_most: Some((What::Variables, 0)),
        ..NO_SUCH_PACKAGE
    },
];

/// What a run that is given up before CERT is made comes to, but for the line on `err`.
const TOO_LARGE: Row = Row {
    status: Status::TooLarge,
    out: "",
    after: After::AsBefore,
    ..EXPLAINED
};

/// What a run comes to whose file could not be written.
const UNWRITTEN: Row = Row {
    status: Status::WriteFault,
    err: "distfuture: write fault\n",
    ..TOO_LARGE
};

const STOPS: &[Row] = &[
    Row {
        packages: "no colon\n",
        status: Status::BadPackages,
        err: "distfuture: bad packages at line 1: NoColon\n",
        ..TOO_LARGE
    },
    Row {
        at_most: Some((What::Variables, 3)),
        err: "distfuture: too large: Variables\n",
        ..TOO_LARGE
    },
    Row {
        at_most: Some((What::Clauses, 1)),
        err: "distfuture: too large: Clauses\n",
        ..TOO_LARGE
    },
    Row {
        at_most: Some((What::Certificate, 33)),
        err: "distfuture: too large: Certificate\n",
        after: After::Is("distfuture-explain 1 10000 2 2 1\n"),
        ..TOO_LARGE
    },
    // The file is not made.
    Row {
        failing: Failing {
            desk: 13,
            ..NOTHING
        },
        ..UNWRITTEN
    },
    Row {
        failing: Failing {
            desk: 15,
            ..NOTHING
        },
        after: After::Is("distfut"),
        ..UNWRITTEN
    },
];

const TABLES: &[Table] = &[
    ("answers are told", ANSWERS),
    ("packages are named", NAMES),
    ("stops are told", STOPS),
];

#[test]
fn packages_are_explained(rt: HostRuntime) {
    hold(&rt, first_wrong(rt.alloc(), TABLES));
}
