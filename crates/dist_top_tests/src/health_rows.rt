//! Worked rows of `health`.
use crate::hold;
use dist_app::Status;
use dist_outside::What;
use dist_top_rows::health_rows::{
    BAD_DEPENDS, BAD_LIST, BAD_PACKAGES, BAD_THIRD_LINE, NOT_HEALTHY, ONE, UNMET,
};
use dist_top_rows::{EMPTY, Failing, NOTHING, Row, Table, first_wrong};

const MAIL: &str = "Package: exim4
Version: 1
Architecture: all
Provides: mail-transport-agent
Conflicts: mail-transport-agent

Package: postfix
Version: 1
Architecture: all
Provides: mail-transport-agent
Conflicts: mail-transport-agent
";

const MET: &str =
    "Package: p\nVersion: 1\nDepends: x (>= 1)\n\nPackage: y\nVersion: 1\nProvides: x (= 1)\n";

const SETS: &[Row] = &[
    Row {
        packages: MAIL,
        list: "postfix 1\n",
        ..EMPTY
    },
    Row {
        packages: MAIL,
        list: "postfix 1\nexim4 1",
        out: "conflict exim4=1 postfix=1\n",
        ..NOT_HEALTHY
    },
    Row {
        packages: MAIL,
        ..EMPTY
    },
    UNMET,
    Row {
        packages: MET,
        list: " p\t1 \n\n  \ny 1-0\ny 1\n",
        ..EMPTY
    },
    Row {
        packages: "Package: a\nVersion: 1\n\nPackage: a\nVersion: 2\n\nPackage: b\nVersion: 1\nDepends: a\n",
        list: "a 2\na 1\n",
        out: "two versions a=1 a=2\n",
        ..NOT_HEALTHY
    },
];

const BAD_FILES: &[Row] = &[
    Row {
        packages: "Package: a\nVersion: 1.0\n\nPackage: a\nVersion: 1.0-0\n",
        err: "distfuture: bad packages at line 4: Clash with line 1\n",
        ..BAD_PACKAGES
    },
    Row {
        packages: "Package: a\nVersion: 1.0\n\nPackage: a\nVersion: 1.0\n",
        list: "a 1.0\n",
        ..EMPTY
    },
    Row {
        packages: "Package: a\nVersion: 1\nDescription\n",
        list: "?",
        err: "distfuture: bad packages at line 3: NoColon\n",
        ..BAD_PACKAGES
    },
    Row {
        packages: "Package: a\nVersion: 1\nArchitecture: a b\n",
        list: "?",
        err: "distfuture: bad packages at line 3: BadArchitecture\n",
        ..BAD_PACKAGES
    },
    Row {
        packages: "Package: a\nVersion: 1_2\n",
        err: "distfuture: bad packages at line 2: BadVersionText BadByte\n",
        ..BAD_PACKAGES
    },
    BAD_DEPENDS,
    Row {
        list: "b 1\n",
        err: "distfuture: bad list at line 1\n",
        ..BAD_LIST
    },
    BAD_THIRD_LINE,
];

// The list is no list, and is not come to.
const STOPPED: Row = Row {
    list: "?",
    status: Status::TooLarge,
    out: "",
    ..EMPTY
};

const LIMITS: &[Row] = &[
    Row {
        packages: "Package: ab",
        at_most: Some((What::Bytes, 10)),
        err: "distfuture: too large: Bytes\n",
        ..STOPPED
    },
    Row {
        list: "a 1\n",
        at_most: Some((What::Bytes, 3)),
        err: "distfuture: too large: Bytes\n",
        ..STOPPED
    },
    Row {
        packages: "Package: a\nVersion: 10\n",
        at_most: Some((What::Bytes, 22)),
        err: "distfuture: too large: Bytes\n",
        ..STOPPED
    },
    Row {
        packages: "Package: a\nVersion: 1\n\nno colon\n",
        at_most: Some((What::Stanzas, 1)),
        err: "distfuture: too large: Stanzas\n",
        ..STOPPED
    },
    Row {
        packages: "no colon\n\nPackage: a\nVersion: 1\n",
        at_most: Some((What::Stanzas, 1)),
        status: Status::BadPackages,
        err: "distfuture: bad packages at line 1: NoColon\n",
        ..STOPPED
    },
];

const FAULTS: &[Row] = &[
    Row {
        packages: ONE,
        list: "a 1\n",
        failing: Failing { out: 1, ..NOTHING },
        status: Status::WriteFault,
        out: "",
        err: "distfuture: write fault\n",
        ..EMPTY
    },
    Row {
        list: "b 1\n",
        failing: Failing { err: 2, ..NOTHING },
        err: "distfuture",
        ..BAD_LIST
    },
    // The packages are taken apart before the list is read.
    Row {
        words: &["health", "packages", "missing"],
        packages: "Package: a\n",
        err: "distfuture: bad packages at line 1: NoVersion\n",
        ..BAD_PACKAGES
    },
    Row {
        words: &["health", "missing", "list"],
        status: Status::ReadFault,
        err: "distfuture: read fault\n",
        ..BAD_PACKAGES
    },
];

const TABLES: &[Table] = &[
    ("sets are judged", SETS),
    ("bad files are told", BAD_FILES),
    ("limits are kept", LIMITS),
    ("faults are told", FAULTS),
];

#[test]
fn health_is_told(rt: HostRuntime) {
    hold(&rt, first_wrong(rt.alloc(), TABLES));
}
