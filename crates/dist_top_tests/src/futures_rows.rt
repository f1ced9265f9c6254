//! Worked rows of `outdated` and `challenged`, and of `check` on what they write.
use crate::hold;
use dist_app::Status;
use dist_outside::What;
use dist_samples::PYTHON;
use dist_top_rows::{After, EMPTY, Row, Table, essential_rows, first_wrong, futures_rows};

/// Two packages of one source, and one that needs versions of both which no later archive has together.
const OUTDATED: Row = Row {
    words: &["outdated", "packages", "cert"],
    packages: "Package: a
Version: 1
Source: s

Package: b
Version: 1
Source: s

Package: p
Version: 1
Depends: a (= 1), b (>= 2)
",
    cert: Some("old\n"),
    out: "report: \"outdated\"
limit: 10000
packages: 3
outdated:
  - \"p=1\"
undecided: []
",
    after: After::Begins("distfuture-certificate 1 outdated plain 10000 3 15 23\n"),
    ..EMPTY
};

const OUTDATED_ROWS: &[Row] = &[
    OUTDATED,
    Row {
        words: &["outdated", "packages", "cert", "--limit=500", "--essential"],
        out: "report: \"outdated\"
limit: 500
packages: 3
outdated:
  - \"p=1\"
undecided: []
",
        after: After::Begins("distfuture-certificate 1 outdated essential 500 3 "),
        ..OUTDATED
    },
    // The sources are apart.
    Row {
        packages: "Package: a
Version: 1

Package: b
Version: 1

Package: p
Version: 1
Depends: a (= 1), b (>= 2)
",
        out: "report: \"outdated\"
limit: 10000
packages: 3
outdated: []
undecided: []
",
        after: After::Begins("distfuture-certificate 1 outdated plain 10000 3 "),
        ..OUTDATED
    },
    // No later version is below the one that stands. Of a name the newest version alone is told of.
    Row {
        packages: "Package: foo
Version: 1

Package: foo
Version: 2

Package: p
Version: 1
Depends: foo (<< 1)
",
        out: "report: \"outdated\"
limit: 10000
packages: 2
outdated:
  - \"p=1\"
undecided: []
",
        after: After::Begins("distfuture-certificate 1 outdated plain 10000 2 "),
        ..OUTDATED
    },
    // A new name may come at any version.
    Row {
        packages: "Package: p
Version: 1
Depends: foo (<< 1)
",
        out: "report: \"outdated\"
limit: 10000
packages: 1
outdated: []
undecided: []
",
        after: After::Begins("distfuture-certificate 1 outdated plain 10000 1 "),
        ..OUTDATED
    },
    // A new version may leave out what its package provides.
    Row {
        packages: "Package: q
Version: 1
Provides: m

Package: p
Version: 1
Depends: q
Conflicts: m
",
        out: "report: \"outdated\"
limit: 10000
packages: 2
outdated: []
undecided: []
",
        after: After::Begins("distfuture-certificate 1 outdated plain 10000 2 "),
        ..OUTDATED
    },
    // Names of which there is no package yet may come.
    Row {
        packages: PYTHON,
        out: "report: \"outdated\"
limit: 10000
packages: 1
outdated: []
undecided: []
",
        after: After::Begins("distfuture-certificate 1 outdated plain 10000 1 "),
        ..OUTDATED
    },
];

const NONE_CHALLENGED: &str = "report: \"challenged\"
limit: 10000
packages: 2
uninstallable: []
challenged: []
undecided: []
undecided_classes: []
";

const CHALLENGED_ROWS: &[Row] = &[
    futures_rows::CHALLENGED,
    // The class breaks the package that needs the library itself alone.
    Row {
        packages: "Package: libx
Version: 1

Package: p
Version: 1
Depends: q

Package: q
Version: 1
Depends: libx (<< 2)
",
        out: "report: \"challenged\"
limit: 10000
packages: 3
uninstallable: []
challenged:
  - cluster: \"libx=1\"
    class: \"= 2\"
    example: \"2\"
    breaks:
      - \"q=1\"
  - cluster: \"libx=1\"
    class: \">> 2\"
    example: \"2-0A\"
    breaks:
      - \"q=1\"
undecided: []
undecided_classes: []
",
        after: After::Begins("distfuture-certificate 1 challenged plain 10000 3 "),
        ..futures_rows::CHALLENGED
    },
    // What is provided moves with the version.
    Row {
        packages: "Package: libx
Version: 1.0
Provides: abi (= 1.0)

Package: p
Version: 1
Depends: abi (= 1.0)
",
        out: "report: \"challenged\"
limit: 10000
packages: 2
uninstallable: []
challenged:
  - cluster: \"libx=1.0\"
    class: \">> 1.0\"
    example: \"1.0-0A\"
    breaks:
      - \"p=1\"
undecided: []
undecided_classes: []
",
        after: After::Begins("distfuture-certificate 1 challenged plain 10000 2 8 8\n"),
        ..futures_rows::CHALLENGED
    },
    // A new version may leave out what its package provides.
    Row {
        packages: "Package: libx
Version: 1
Provides: abi (= 1)

Package: p
Version: 1
Depends: libx
Conflicts: abi (>= 2)
",
        out: NONE_CHALLENGED,
        after: After::Begins("distfuture-certificate 1 challenged plain 10000 2 "),
        ..futures_rows::CHALLENGED
    },
    // What is essential must be there, at mode essential alone.
    essential_rows::CHALLENGED,
    Row {
        words: &["challenged", "packages", "cert"],
        out: NONE_CHALLENGED,
        after: After::Begins("distfuture-certificate 1 challenged plain 10000 2 11 17\n"),
        ..essential_rows::CHALLENGED
    },
];

/// A front of a certificate with the same numbers at the other mode.
const OTHER_MODE: &str = "distfuture-certificate 1 challenged plain 10000 2 11 18
q 1 2
";

const CHECK_ROWS: &[Row] = &[
    essential_rows::CHECK_CHALLENGED,
    // At mode plain there is a clause less.
    Row {
        cert: Some(OTHER_MODE),
        status: Status::CertificateRefused,
        out: "",
        err: "distfuture: certificate refused at line 1: BadHeader\n",
        ..essential_rows::CHECK_CHALLENGED
    },
];

// A number that the variables or the clauses of the futures pass leaves the file as it was.
const STOPPED: &[Row] = &[
    Row {
        at_most: Some((What::Variables, 1)),
        status: Status::TooLarge,
        out: "",
        err: "distfuture: too large: Variables\n",
        after: After::AsBefore,
        ..OUTDATED
    },
    Row {
        at_most: Some((What::Clauses, 1)),
        status: Status::TooLarge,
        out: "",
        err: "distfuture: too large: Clauses\n",
        after: After::AsBefore,
        ..futures_rows::CHALLENGED
    },
    Row {
        at_most: Some((What::Certificate, 60)),
        status: Status::TooLarge,
        out: "",
        err: "distfuture: too large: Certificate\n",
        after: After::Begins("distfuture-certificate 1 challenged plain 10000 2 "),
        ..futures_rows::CHALLENGED
    },
];

const TABLES: &[Table] = &[
    ("outdated packages are told", OUTDATED_ROWS),
    ("challenges are told", CHALLENGED_ROWS),
    ("certificates on the futures are judged", CHECK_ROWS),
    ("a sweep for the futures is stopped", STOPPED),
];

#[test]
fn futures_are_told(rt: HostRuntime) {
    hold(&rt, first_wrong(rt.alloc(), TABLES));
}
