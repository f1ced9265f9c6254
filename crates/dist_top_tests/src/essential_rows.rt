//! Worked rows of essential packages, whose names every healthy installation has where the flag stands.
use crate::hold;
use dist_app::Status;
use dist_top_rows::strong_rows::NONE;
use dist_top_rows::{After, EMPTY, Row, Table, first_wrong};

const BASE: &str =
    "Package: a\nVersion: 1\n\nPackage: b\nVersion: 1\nConflicts: base\n\nPackage: base\nVersion: 1\nEssential: yes\n";

// The conflict is with base 1 alone, and a depends on base.
const BOUND: &str = "Package: a
Version: 1
Depends: base

Package: b
Version: 1
Conflicts: base (= 1)

Package: base
Version: 1
Essential: yes
";

const ESSENTIAL: Row = Row {
    words: &["strong", "packages", "cert", "--essential"],
    packages: BASE,
    out: "report: \"strong\"
limit: 10000
packages: 3
uninstallable:
  - \"b=1\"
strong:
  - package: \"a=1\"
    on:
      - \"base=1\"
impact:
  - package: \"base=1\"
    of:
      - \"a=1\"
undecided: []
undecided_pairs: []
",
    after: After::Begins("distfuture-certificate 1 strong essential 10000 3 3 2\n"),
    ..NONE
};

const FLAG: &[Row] = &[
    ESSENTIAL,
    Row {
        words: &["strong", "packages", "cert"],
        out: "report: \"strong\"
limit: 10000
packages: 3
uninstallable: []
strong: []
impact: []
undecided: []
undecided_pairs: []
",
        after: After::Begins("distfuture-certificate 1 strong plain 10000 3 3 1\n"),
        ..ESSENTIAL
    },
];

// A name is met by any version, one that is not essential too.
const VERSIONS: &[Row] = &[
    Row {
        packages: "Package: a
Version: 1

Package: b
Version: 1
Conflicts: base

Package: base
Version: 1
Essential: yes

Package: base
Version: 2
",
        out: "report: \"strong\"
limit: 10000
packages: 4
uninstallable:
  - \"b=1\"
strong: []
impact: []
undecided: []
undecided_pairs: []
",
        after: After::Begins("distfuture-certificate 1 strong essential 10000 4 4 4\n"),
        ..ESSENTIAL
    },
    Row {
        packages: BOUND,
        after: After::Begins("distfuture-certificate 1 strong essential 10000 3 3 3\n"),
        ..ESSENTIAL
    },
    Row {
        packages: "Package: a
Version: 1
Depends: base

Package: b
Version: 1
Conflicts: base (= 1)

Package: base
Version: 1
Essential: yes

Package: base
Version: 2
",
        out: "report: \"strong\"
limit: 10000
packages: 4
uninstallable: []
strong:
  - package: \"b=1\"
    on:
      - \"base=2\"
impact:
  - package: \"base=2\"
    of:
      - \"b=1\"
undecided: []
undecided_pairs: []
",
        after: After::Begins("distfuture-certificate 1 strong essential 10000 4 4 4\n"),
        ..ESSENTIAL
    },
];

const ACCEPTED: Row = Row {
    words: &["check", "packages", "cert"],
    cert: Some(
        "distfuture-certificate 1 strong essential 10000 3 3 2\nq 1\nm 1 3\nq 1 -3\nf 2\ns 1 1 0 3 0\nq 2\nf 1 2\nx 2\nq 3\nm 3\ns 3 2 0 0\ne\n",
    ),
    after: After::AsBefore,
    ..ESSENTIAL
};

// The certificate of the flag speaks of the clauses of its mode.
const OTHERS: &[Row] = &[
    ACCEPTED,
    Row {
        cert: Some(
            "distfuture-certificate 1 strong plain 10000 3 3 2\nq 1\nm 1 3\nq 1 -3\nf 2\ns 1 1 0 3 0\nq 2\nf 1 2\nx 2\nq 3\nm 3\ns 3 2 0 0\ne\n",
        ),
        status: Status::CertificateRefused,
        out: "",
        err: "distfuture: certificate refused at line 1: BadHeader\n",
        ..ACCEPTED
    },
    // Health is judged without essential names.
    Row {
        packages: BASE,
        list: "a 1\n",
        ..EMPTY
    },
];

const TABLES: &[Table] = &[
    ("the flag reaches the certificate", FLAG),
    ("any version meets an essential name", VERSIONS),
    ("the flag is of strong alone", OTHERS),
];

#[test]
fn essential_names_are_kept(rt: HostRuntime) {
    hold(&rt, first_wrong(rt.alloc(), TABLES));
}
